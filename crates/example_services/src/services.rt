//! Services of one's own: a counter and a greeting.
ghost use Rattle.std.specs.Prelude.{◌≡◌};
ghost use Rattle.example_services.specs.Counts.{standing, opening};
ghost use Rattle.example_services.specs.Laws.{example_good, example_refuses};

use crate::offered::{service_of_name, type_of};
use crate::serving::answer_call;
use plan_base::{Name, NoMemory, Svc, Values};
use service_api::{Answer, Ctx, Scheme, Services};
use std::alloc::Global;
use std::marker::Model;

/// The number of the next count, now and at the open `begin`, and whether `ready` was answered since the last `call`.
#[derive(Clone, Copy)]
pub struct Counts {
    /// The number of the next count, from 1 on.
    pub number: i64,
    /// That number at the open `begin`.
    pub begun: Option<i64>,
    /// Whether what was counted may be kept.
    pub is_ready: bool,
}

/// A counter and a greeting. Nothing of it takes memory between calls.
#[derive(Drop)]
pub struct ExampleServices {
    counts: Counts,
}

impl Model for ExampleServices {
    ghost use Rattle.example_services.specs.declared.services.Counts.{Counts};
    ghost use Rattle.example_services.specs.contracts.services.Counts as row;
    ghost use Rattle.example_services.specs.Counts.{AreNumbers};

    ghost Value = { Counts };

    ghost coded = { row.the_row.coded };

    ghost view = { λ s. s.counts };

    ghost invariant = { λ s. AreNumbers s.counts };
}

impl ExampleServices {
    /// Services of which none was called, with no `begin` open. Takes no memory.
    pub fn new() -> ExampleServices
        ensures { standing result ≡ opening }
    {
        ExampleServices {
            counts: Counts {
                number: 1,
                begun: None,
                is_ready: false,
            },
        }
    }
}

impl Services for ExampleServices {
    ghost stands = { standing };

    ghost good = { example_good };

    ghost refuses = { example_refuses };

    fn scheme(&self, alloc: Global, name: &Name) -> Result<Option<Scheme>, NoMemory> {
        match service_of_name(name) {
            Some(service) => Ok(Some(type_of(alloc, service)?)),
            None => Ok(None),
        }
    }

    fn call(
        &mut self,
        alloc: Global,
        svc: &Svc,
        args: &Values,
        ctx: &Ctx,
    ) -> Result<Answer, NoMemory> {
        let _around = ctx;
        let mut number = self.counts.number;
        let answer = answer_call(alloc, &mut number, svc, args.as_slice());
        self.counts = Counts {
            number,
            begun: self.counts.begun,
            is_ready: false,
        };
        answer
    }

    fn begin(&mut self, alloc: Global) -> Result<(), NoMemory> {
        let _unused = alloc;
        self.counts = Counts {
            number: self.counts.number,
            begun: Some(self.counts.number),
            is_ready: false,
        };
        Ok(())
    }

    fn ready(&mut self, alloc: Global) -> Result<(), NoMemory> {
        let _unused = alloc;
        self.counts = Counts {
            number: self.counts.number,
            begun: self.counts.begun,
            is_ready: true,
        };
        Ok(())
    }

    fn keep(&mut self) {
        self.counts = Counts {
            number: self.counts.number,
            begun: None,
            is_ready: false,
        };
    }

    fn abandon(&mut self) {
        let Some(number) = self.counts.begun else {
            unreachable!()
        };
        self.counts = Counts {
            number,
            begun: None,
            is_ready: false,
        };
    }

    fn expire(&mut self, now: u64) {
        let _no_rows = now;
    }
}

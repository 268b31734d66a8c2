//! What has been read of a program.
ghost use Rattle.std.specs.Prelude.{Result, Ok, Err};
ghost use Rattle.plan_parser_exprs.specs.Ahead.{Answers};
ghost use Rattle.plan_parser.specs.Programs as spec;

use plan_base::{Draft, Funs, Names, Places, Program, Svcs};
use plan_parser_exprs::ParseFault;

/// The declarations that were read, with their places and those of the expressions.
pub struct Gathered {
    pub svcs: Svcs,
    pub exns: Names,
    pub funs: Funs,
    pub svc_at: Places,
    pub exn_at: Places,
    pub fun_at: Places,
    pub node_at: Places,
}

// (with its own `Drop`, so that a function which stops on its way drops it by one call)
impl Drop for Gathered {
    fn drop(self) {
        let Gathered {
            svcs: _svcs,
            exns: _exns,
            funs: _funs,
            svc_at: _svc_at,
            exn_at: _exn_at,
            fun_at: _fun_at,
            node_at: _node_at,
        } = self;
    }
}

impl Gathered {
    /// The draft that these declarations are.
    pub fn into_draft(self) -> Result<Draft, ParseFault>
        ensures { Answers (Ok (spec.draft_of self)) result }
    {
        let Gathered {
            svcs,
            exns,
            funs,
            svc_at,
            mut exn_at,
            fun_at,
            node_at,
        } = self;
        let program = Program { svcs, exns, funs };
        match exn_at.append(fun_at) {
            Ok(()) => {
                let mut decl_at = svc_at;
                match decl_at.append(exn_at) {
                    Ok(()) => Ok(Draft {
                        program,
                        decl_at,
                        node_at,
                    }),
                    Err(_refused) => Err(ParseFault::NoMemory),
                }
            }
            Err(_refused) => Err(ParseFault::NoMemory),
        }
    }
}

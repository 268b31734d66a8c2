//! Laws of the example's services, as the trait asks for them.
ghost use Rattle.service_api.specs.Services.{IsGoodServe, RefusesOthers};
ghost use Rattle.example_services.specs.Serving.{serve, offer};

/// From good rows, good arguments and at most 8 neighbours both services give a good value of their declared type and a good
/// note, and leave good rows.
pub fn answers_are_good()
    ensures { IsGoodServe serve }
{}

/// A declaration of another name, or of another type, is `NoService`, and the counter stays.
pub fn others_are_refused()
    ensures { RefusesOthers offer }
{}

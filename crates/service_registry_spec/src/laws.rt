//! Laws of the standard services, as the trait asks for them.
ghost use Rattle.service_api.specs.Services.{IsGoodServe, RefusesOthers};
ghost use Rattle.service_registry_spec.specs.Offered.{InstalledPackages};
ghost use Rattle.service_registry_spec.specs.Serving.{serve, offer};

/// Whichever packages are there: from good rows, good arguments and at most 8 neighbours each service gives a good
/// value of its declared type and a good note or raises one of its exceptions, and leaves good rows.
pub fn answers_are_good()
    ensures { (p : InstalledPackages) → IsGoodServe (serve p) }
{}

/// Whichever packages are there: a declaration of a name that isn't offered, or that is no instance of the type of
/// its name, is `NoService`, and the rows stay.
pub fn others_are_refused()
    ensures { (p : InstalledPackages) → RefusesOthers (offer p) }
{}

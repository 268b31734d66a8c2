//! Which packages a node has.
ghost use Rattle.std.specs.Prelude.{◌≡◌};
ghost use Rattle.service_registry_spec.specs.Beginning.{is_package, is_missing, one_less, present_without};
ghost use Rattle.service_registry_spec.specs.Offered.{is_there};
ghost use Rattle.service_registry.specs.Packages.{present_of};

use service_api::PackageName;

/// Which packages are there.
#[derive(Clone, Copy)]
pub struct InstalledPackages {
    pub net: bool,
    pub resident: bool,
    pub host: bool,
}

impl InstalledPackages {
    /// All packages but for `missing`.
    pub fn without(missing: &[PackageName]) -> InstalledPackages
        ensures { present_of result ≡ present_without missing.now }
    {
        InstalledPackages {
            net: !is_missing(missing, PackageName::Net),
            resident: !is_missing(missing, PackageName::Resident),
            host: !is_missing(missing, PackageName::Host),
        }
    }

    /// The same but for one package.
    pub fn one_less(self, missing: PackageName) -> InstalledPackages
        ensures { present_of result ≡ one_less (present_of self) missing }
    {
        InstalledPackages {
            net: self.net && !is_package(PackageName::Net, missing),
            resident: self.resident && !is_package(PackageName::Resident, missing),
            host: self.host && !is_package(PackageName::Host, missing),
        }
    }

    /// Whether the package is there.
    pub fn has(self, wanted: PackageName) -> bool
        ensures { result ≡ is_there (present_of self) wanted }
    {
        match wanted {
            PackageName::Net => self.net,
            PackageName::Resident => self.resident,
            PackageName::Host => self.host,
        }
    }
}

fn is_package(a: PackageName, b: PackageName) -> bool
    ensures { result ≡ is_package a b }
{
    match a {
        PackageName::Net => matches!(b, PackageName::Net),
        PackageName::Resident => matches!(b, PackageName::Resident),
        PackageName::Host => matches!(b, PackageName::Host),
    }
}

fn is_missing(missing: &[PackageName], wanted: PackageName) -> bool
    ensures { result ≡ is_missing missing.now wanted }
{
    let mut rest = missing;
    while let [m, later @ ..] = rest {
        if is_package(wanted, *m) {
            return true;
        }
        rest = later;
    }
    false
}

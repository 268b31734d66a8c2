//! Which service a name is.
ghost use Rattle.std.specs.Prelude.{◌≡◌, ◌∷◌, []};
ghost use Rattle.std.specs.Str.{bytes_eq};
ghost use Rattle.service_registry_spec.specs.Offered as spec;
ghost use Rattle.service_registry.specs.Packages.{present_of};

use crate::installed_packages::InstalledPackages;
use plan_base::{Name, same_bytes};
use service_api::PackageName;
use service_registry_spec::Service;

fn name_of(service: Service) -> &'static [u8]
    ensures { result.now ≡ spec.name_of service }
{
    match service {
        Service::ThisHost => b"thisHost".as_slice(),
        Service::ThisHostIs => b"thisHostIs".as_slice(),
        Service::GetRb => b"getRB".as_slice(),
        Service::GetSource => b"getSource".as_slice(),
        Service::GetNeighbors => b"getNeighbors".as_slice(),
        Service::GetDist => b"getDist".as_slice(),
        Service::NextHop => b"nextHop".as_slice(),
        Service::Put => b"put".as_slice(),
        Service::Get => b"get".as_slice(),
        Service::Remove => b"remove".as_slice(),
        Service::GenerateKey => b"generateKey".as_slice(),
        Service::Print => b"print".as_slice(),
        Service::Deliver => b"deliver".as_slice(),
    }
}

fn package_of(service: Service) -> PackageName
    ensures { result ≡ spec.package_of service }
{
    match service {
        Service::ThisHost
        | Service::ThisHostIs
        | Service::GetRb
        | Service::GetSource
        | Service::GetNeighbors
        | Service::GetDist
        | Service::NextHop => PackageName::Net,
        Service::Put | Service::Get | Service::Remove | Service::GenerateKey => {
            PackageName::Resident
        }
        Service::Print | Service::Deliver => PackageName::Host,
    }
}

fn is_named(service: Service, name: &Name) -> bool
    ensures { result ≡ bytes_eq (spec.name_of service) name.now }
{
    same_bytes(name_of(service), name.as_slice())
}

/// The service, if it has the name.
fn one_named(a: Service, name: &Name) -> Option<Service>
    ensures { result ≡ spec.service_named (a ∷ []) name.now }
{
    if is_named(a, name) { Some(a) } else { None }
}

/// The first of the services that has the name.
fn first_named(a: Service, b: Service, name: &Name) -> Option<Service>
    ensures { result ≡ spec.service_named (a ∷ b ∷ []) name.now }
{
    if is_named(a, name) {
        Some(a)
    } else {
        one_named(b, name)
    }
}

fn service_of_seven(name: &Name) -> Option<Service>
    ensures { result ≡ spec.service_named
        (Service.GetDist ∷ Service.NextHop ∷ Service.Deliver ∷ []) name.now }
{
    if is_named(Service::GetDist, name) {
        Some(Service::GetDist)
    } else {
        first_named(Service::NextHop, Service::Deliver, name)
    }
}

/// The service of the name: it is compared with those names alone that are as long.
#[tactic(auto, using(crate::proofs::ByLength::long_other))]
fn service_of_name(name: &Name) -> Option<Service>
    ensures { result ≡ spec.service_named spec.all_services name.now }
{
    match name.as_slice().len() {
        3 => first_named(Service::Put, Service::Get, name),
        5 => first_named(Service::GetRb, Service::Print, name),
        6 => one_named(Service::Remove, name),
        7 => service_of_seven(name),
        8 => one_named(Service::ThisHost, name),
        9 => one_named(Service::GetSource, name),
        10 => one_named(Service::ThisHostIs, name),
        11 => one_named(Service::GenerateKey, name),
        12 => one_named(Service::GetNeighbors, name),
        _ => None,
    }
}

/// The service of the name, where its package is there.
pub fn installed_service(there: InstalledPackages, name: &Name) -> Option<Service>
    ensures { result ≡ spec.offered_service (present_of there) name.now }
{
    match service_of_name(name) {
        Some(service) => {
            if there.has(package_of(service)) {
                Some(service)
            } else {
                None
            }
        }
        None => None,
    }
}

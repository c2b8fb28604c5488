ghost use Rattle.std.specs.Prelude.{◌≡◌, ℕ, List, Option};
ghost use Rattle.audit_core.specs.declared.line.Line.{Line};
ghost use Rattle.knxsec_app.specs.Showing.{carries_value, has_value, type_for, nothing_shown, values_shown};

use audit_core::Line;
use datapoints::{Dpt, ShownValue, Types};
use judge_rules::Verdict;
use knx_base::GroupAddr;
use plain_apdu::Service;

/// What an audit shows behind the APDU in the line of a record.
pub(crate) trait Showing {
    // what stands there, by the line and the APDU
    ghost shown: { Self → Line → List ℕ → List ℕ };

    fn show(&self, line: &Line, apdu: &[u8]) -> ShownValue
        ensures { result ≡ shown self.now line.now apdu.now };
}

/// Nothing.
pub(crate) struct NothingShown;

impl Showing for NothingShown {
    ghost shown = { λ _. nothing_shown };

    fn show(&self, _line: &Line, _apdu: &[u8]) -> ShownValue {
        ShownValue::nothing()
    }
}

/// The values of the groups that have a type.
impl Showing for Types {
    ghost shown = { values_shown };

    fn show(&self, line: &Line, apdu: &[u8]) -> ShownValue {
        if !has_value(&line.verdict) {
            return ShownValue::nothing();
        }
        match type_for(self, line) {
            Some(dpt) => ShownValue::of(dpt, apdu),
            None => ShownValue::nothing(),
        }
    }
}

// An accepted write or response.
fn has_value(verdict: &Verdict) -> bool
    ensures { result ≡ has_value verdict.now }
{
    match verdict {
        Verdict::Accepted { service, .. } => carries_value(*service),
        _ => false,
    }
}

fn carries_value(service: Service) -> bool
    ensures { result ≡ carries_value service }
{
    matches!(
        service,
        Service::GroupValueWrite | Service::GroupValueResponse
    )
}

// The type of the group that a record is for.
fn type_for(types: &Types, line: &Line) -> Option<Dpt>
    ensures { result ≡ type_for types.now line.now }
{
    match &line.addresses {
        Some(found) if found.group => types.of(GroupAddr(found.destination)),
        _ => None,
    }
}

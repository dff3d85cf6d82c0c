//! Data with names that may be compressed, of the seven types that RFC 3597 4 adds to those of RFC 1035.

ghost use Rattle.std.specs.Prelude.{◌≡◌, ◌≤◌, length, IfSome, MatchOption, option_map};
ghost use Rattle.dns_base.specs.Data.{Named};
ghost use Rattle.dns_base.specs.Forms as spec;
ghost use Rattle.dns_base.specs.RecordData.{data_view, form_view};

use crate::record_data::RecordData;
use crate::spelling::named_size;
use dns_names::ParsedName;
use dns_values::Rtype;

const RT: Rtype = Rtype(21);

const PX: Rtype = Rtype(26);

const NXT: Rtype = Rtype(30);

/// What stands around the names of a type's data.
#[derive(Clone, Copy)]
pub(crate) struct Form {
    /// So many octets stand first.
    octets: usize,
    /// So many counted strings stand behind them, and then a name.
    strings: usize,
    /// Whether a second name follows.
    has_second: bool,
    /// Whether other octets may stand behind.
    has_rest: bool,
}

impl Form {
    fn new(octets: usize, strings: usize, has_second: bool, has_rest: bool) -> Form
        ensures { result ≡ record { octets = octets; strings = strings; has_second = has_second; has_rest = has_rest } }
    {
        Form {
            octets,
            strings,
            has_second,
            has_rest,
        }
    }
}

/// The form of a type's data, if it has one.
pub(crate) fn form_of(rtype: Rtype) -> Option<Form>
    ensures { option_map form_view result ≡ spec.form_of rtype.0 }
{
    match rtype {
        Rtype::RP => Some(Form::new(0, 0, true, false)),
        Rtype::AFSDB | RT => Some(Form::new(2, 0, false, false)),
        Rtype::SIG => Some(Form::new(18, 0, false, true)),
        PX => Some(Form::new(2, 0, true, false)),
        NXT => Some(Form::new(0, 0, false, true)),
        Rtype::NAPTR => Some(Form::new(4, 3, false, false)),
        _ => None,
    }
}

/// How many octets so many counted strings have that stand first.
fn strings_size(count: usize, octets: &[u8]) -> Option<usize>
    ensures size { result ≡ spec.strings_size count octets.now }
    ensures within { IfSome result (λ size. size ≤ length octets.now) }
{
    if count == 0 {
        return Some(0);
    }
    match octets {
        [] => None,
        [len, others @ ..] => {
            let len = *len as usize;
            let behind = others.get(len..)?;
            let size = strings_size(count - 1, behind)?;
            Some(1 + len + size)
        }
    }
}

/// How many octets stand before the first name.
fn size_before(form: Form, octets: &[u8]) -> Option<usize>
    ensures size { result ≡ spec.size_before (form_view form) octets.now }
    ensures within { IfSome result (λ size. size ≤ length octets.now) }
{
    let behind = octets.get(form.octets..)?;
    let size = strings_size(form.strings, behind)?;
    Some(form.octets + size)
}

/// The second name, if there is to be one, and where the names end.
fn second_at(has_second: bool, octets: &[u8], at: usize) -> Option<(Option<ParsedName<'_>>, usize)>
    requires { at ≤ length octets.now }
    ensures value { result ≡ option_map (λ s. (s.name, s.end)) (spec.second_at has_second octets.now at) }
    ensures order { IfSome result (λ x. at ≤ x.1) }
    ensures within { IfSome result (λ x. x.1 ≤ length octets.now) }
{
    if !has_second {
        return Some((None, at));
    }
    let (name, end) = ParsedName::parse(octets, at)?;
    Some((Some(name), end))
}

/// Whether names that end at a place leave what may stand behind them, and no more.
fn ends_so(has_rest: bool, at: usize, end: usize) -> bool
    ensures { result ≡ spec.ends_so has_rest at end }
{
    if has_rest { at <= end } else { at == end }
}

/// Data of a form between two places, if a record could hold it with its names spelled out.
pub(crate) fn named_to(form: Form, octets: &[u8], at: usize, end: usize) -> Option<RecordData<'_>>
    requires order { at ≤ end }
    requires within { end ≤ length octets.now }
    ensures { MatchOption result (spec.named_to (form_view form) octets.now at end ≡ None) (λ d. option_map Named (spec.named_to (form_view form) octets.now at end) ≡ Some (data_view d)) }
{
    let from = at + size_before(form, &octets[at..end])?;
    let (first, after) = ParsedName::parse(octets, from)?;
    let (second, after) = second_at(form.has_second, octets, after)?;
    if !ends_so(form.has_rest, after, end) {
        return None;
    }
    let before = &octets[at..from];
    let behind = &octets[after..end];
    if named_size(before, &first, &second, behind) > 65535 {
        return None;
    }
    Some(RecordData::Named {
        before,
        first,
        second,
        behind,
    })
}

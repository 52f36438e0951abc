ghost use Rattle.std.specs.Prelude.{◌≡◌, ◌<◌, ◌^◌, List, [], ℕ, map, option_map, IfOk, IfSome, IfNone, IsErrOf, OnErr, is_some};
ghost use Rattle.std.specs.List.{list_all, list_any};
ghost use Rattle.std.specs.Option.{option_to_list};
ghost use Rattle.name_set.specs.Bytes.{AreBytes};
ghost use Rattle.primitives.specs.Words.{SpellsFlags, SpellsProto};
ghost use Rattle.request.specs.Fields.{Given, HasTwo, SaysAddress, SaysName, SaysPort, SaysState, SaysType, is_field, value_after, values_of};
ghost use Rattle.request.specs.Requests.{width_of};

use crate::SpellFault;
use crate::names::name_of;
use addr_text::{Family, V4, V6, read_number};
use match_expr::Bytes;
use primitives::{read_flags, read_proto, read_state};
use std::alloc::Global;

// The names of the fields, each with its `=`.
static FIELDS: [&[u8]; 10] = [
    b"in=", b"out=", b"src=", b"dst=", b"proto=", b"sport=", b"dport=", b"flags=", b"state=",
    b"icmp=",
];

/// What follows the field's name and `=`, where the argument begins with them.
pub fn value_after<'a>(field: &[u8], argument: &'a [u8]) -> Option<&'a [u8]>
    ensures { option_map (λ s. s.now) result ≡ value_after field.now argument.now }
{
    if argument.starts_with(field) {
        Some(&argument[field.len()..])
    } else {
        None
    }
}

// Whether the argument gives a value to one of these fields.
fn is_one_of(fields: &[&[u8]], argument: &[u8]) -> bool
    ensures { result ≡ list_any (λ field. is_some (value_after field argument.now)) (map (λ f. f.now) fields.now) }
{
    for field in fields {
        if value_after(field, argument).is_some() {
            return true;
        }
    }
    false
}

// Whether an argument gives a value to some field.
#[tactic(auto, unfolding(crate::specs::Fields::is_field))]
fn is_field(argument: &str) -> bool
    ensures { result ≡ is_field argument.now }
{
    is_one_of(&FIELDS, argument.as_bytes())
}

/// Whether each argument gives a value to some field.
pub fn are_fields(arguments: &[&str]) -> bool
    ensures { result ≡ list_all is_field (map (λ s. s.now) arguments.now) }
{
    for argument in arguments {
        if !is_field(argument) {
            return false;
        }
    }
    true
}

// The value that the arguments give to a field, if they give one. `Usage` exactly where they give two or more.
fn value_of<'a>(field: &[u8], arguments: &[&'a str]) -> Result<Option<&'a [u8]>, SpellFault>
    ensures one { IfOk result (λ o. values_of field.now (map (λ s. s.now) arguments.now) ≡ option_to_list (option_map (λ v. v.now) o)) }
    ensures two { OnErr result (HasTwo (values_of field.now (map (λ s. s.now) arguments.now))) }
{
    let mut given = None;
    for argument in arguments {
        if let Some(value) = value_after(field, argument.as_bytes()) {
            if given.is_some() {
                return Err(SpellFault::Usage);
            }
            given = Some(value);
        }
    }
    Ok(given)
}

/// The name of a field, empty where none is given. `Usage` exactly where the arguments give none.
pub fn name(alloc: Global, field: &[u8], arguments: &[&str]) -> Result<Bytes, SpellFault>
    ensures ok { IfOk result (Given SaysName [] (values_of field.now (map (λ s. s.now) arguments.now))) }
    ensures bytes { IfOk result AreBytes }
    ensures usage { IsErrOf result SpellFault.Usage → (x : List ℕ) → Given SaysName [] (values_of field.now (map (λ s. s.now) arguments.now)) x → ⊥ }
{
    match value_of(field, arguments)? {
        Some(value) => name_of(alloc, value),
        None => Ok(no_name(alloc)),
    }
}

fn no_name(alloc: Global) -> Bytes
    ensures is { result ≡ [] }
    ensures bytes { AreBytes result }
{
    Bytes::of(Vec::new(alloc))
}

fn read_address(six: bool, value: &[u8]) -> Option<u128>
    ensures some { IfSome result (SaysAddress six value.now) }
    ensures fits { IfSome result (λ address. address < 2 ^ width_of six) }
    ensures none { IfNone result ((address : ℕ) → SaysAddress six value.now address → ⊥) }
{
    if six {
        V6::read(value)
    } else {
        V4::read(value)
    }
}

/// The address of a field, 0 where none is given.
pub fn address(six: bool, field: &[u8], arguments: &[&str]) -> Result<u128, SpellFault>
    ensures ok { IfOk result (Given (SaysAddress six) 0 (values_of field.now (map (λ s. s.now) arguments.now))) }
    ensures fits { IfOk result (λ address. address < 2 ^ width_of six) }
    ensures usage { OnErr result ((x : ℕ) → Given (SaysAddress six) 0 (values_of field.now (map (λ s. s.now) arguments.now)) x → ⊥) }
{
    match value_of(field, arguments)? {
        Some(value) => read_address(six, value).ok_or(SpellFault::Usage),
        None => Ok(0),
    }
}

/// The protocol of a field, 0 where none is given.
pub fn protocol(field: &[u8], arguments: &[&str]) -> Result<u8, SpellFault>
    ensures ok { IfOk result (Given SpellsProto 0 (values_of field.now (map (λ s. s.now) arguments.now))) }
    ensures usage { OnErr result ((x : ℕ) → Given SpellsProto 0 (values_of field.now (map (λ s. s.now) arguments.now)) x → ⊥) }
{
    match value_of(field, arguments)? {
        Some(value) => read_proto(value).ok_or(SpellFault::Usage),
        None => Ok(0),
    }
}

/// The port of a value, a number to 65535. `None` exactly where the value is no such number.
pub fn read_port(value: &[u8]) -> Option<u16>
    ensures some { IfSome result (SaysPort value.now) }
    ensures none { IfNone result ((port : ℕ) → SaysPort value.now port → ⊥) }
{
    match read_number(value, 65535) {
        Some(port) => Some(port as u16),
        None => None,
    }
}

/// The port of a field, 0 where none is given.
pub fn port(field: &[u8], arguments: &[&str]) -> Result<u16, SpellFault>
    ensures ok { IfOk result (Given SaysPort 0 (values_of field.now (map (λ s. s.now) arguments.now))) }
    ensures usage { OnErr result ((x : ℕ) → Given SaysPort 0 (values_of field.now (map (λ s. s.now) arguments.now)) x → ⊥) }
{
    match value_of(field, arguments)? {
        Some(value) => read_port(value).ok_or(SpellFault::Usage),
        None => Ok(0),
    }
}

/// The flags of a field, none of them where it isn't given.
pub fn flags(field: &[u8], arguments: &[&str]) -> Result<u8, SpellFault>
    ensures ok { IfOk result (Given SpellsFlags 0 (values_of field.now (map (λ s. s.now) arguments.now))) }
    ensures small { IfOk result (λ flags. flags < 64) }
    ensures usage { OnErr result ((x : ℕ) → Given SpellsFlags 0 (values_of field.now (map (λ s. s.now) arguments.now)) x → ⊥) }
{
    match value_of(field, arguments)? {
        Some(value) => read_flags(value).ok_or(SpellFault::Usage),
        None => Ok(0),
    }
}

/// The state of a field, NEW where none is given.
#[tactic(auto, using(crate::proofs::SmallWords::state_fits))]
pub fn state(field: &[u8], arguments: &[&str]) -> Result<u8, SpellFault>
    ensures ok { IfOk result (Given SaysState 1 (values_of field.now (map (λ s. s.now) arguments.now))) }
    ensures small { IfOk result (λ state. state < 5) }
    ensures usage { OnErr result ((x : ℕ) → Given SaysState 1 (values_of field.now (map (λ s. s.now) arguments.now)) x → ⊥) }
{
    match value_of(field, arguments)? {
        Some(value) => read_state(value).ok_or(SpellFault::Usage),
        None => Ok(1),
    }
}

/// The type of a message in a field, a number to 255, and 0 where none is given.
pub fn icmp_type(field: &[u8], arguments: &[&str]) -> Result<u8, SpellFault>
    ensures ok { IfOk result (Given SaysType 0 (values_of field.now (map (λ s. s.now) arguments.now))) }
    ensures usage { OnErr result ((x : ℕ) → Given SaysType 0 (values_of field.now (map (λ s. s.now) arguments.now)) x → ⊥) }
{
    match value_of(field, arguments)? {
        Some(value) => match read_number(value, 255) {
            Some(number) => Ok(number as u8),
            None => Err(SpellFault::Usage),
        },
        None => Ok(0),
    }
}

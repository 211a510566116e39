//! Names of members.
ghost use Rattle.std.specs.Prelude.{List, ℕ, ◌<◌, drop, IfOk, IfErr};
ghost use Rattle.std.specs.Cow.{cow_str_bytes};
ghost use Rattle.wire_json.specs.Answer.{FaultAt, IfRefused};
ghost use Rattle.wire_json.specs.Fault.{NameFault};
ghost use Rattle.wire_json.specs.Text.{ReadsName};

use crate::container::skip_colon;
use crate::fault::{Fault, JsonError};
use crate::text::{StringRead, read_string, skip_string};
use std::alloc::Global;

/// Reads the name of a member, and passes over its colon to the value.
pub fn read_name<'a>(alloc: Global, text: &'a [u8], at: usize) -> Result<StringRead<'a>, JsonError>
    ensures ok { IfOk result (λ read.
        ReadsName (cow_str_bytes read.value) (drop at text.now) (drop read.after text.now)) }
    ensures behind { IfOk result (λ read. at < read.after) }
    ensures fault { IfErr result (λ e. IfRefused e
        (λ fault. FaultAt text.now fault (NameFault (drop at text.now)))) }
{
    let mut read = read_string(alloc, text, at)?;
    read.after = skip_colon(text, read.after)?;
    Ok(read)
}

/// Passes over the name of a member and its colon to the value.
pub fn skip_name(text: &[u8], at: usize) -> Result<usize, Fault>
    ensures ok { IfOk result (λ after. (name : List ℕ)
        × ReadsName name (drop at text.now) (drop after text.now)) }
    ensures behind { IfOk result (λ after. at < after) }
    ensures fault { IfErr result (λ fault.
        FaultAt text.now fault (NameFault (drop at text.now))) }
{
    let behind = skip_string(text, at)?;
    skip_colon(text, behind)
}

//! Lists.
ghost use Rattle.std.specs.Prelude.{◌≡◌, ◌≢◌, ◌∷◌, ◌++◌, [], map, drop, IfOk, IfErr, OnOk, OnErr};
ghost use Rattle.wire_json.specs.Answer.{IsBehind};
ghost use Rattle.wire_json.specs.Compact.{Extends};
ghost use Rattle.wire_json.specs.Json.{Json};
ghost use Rattle.wire_json.specs.Written.{written};
ghost use Rattle.wire_protojson.specs.declared.refusal.ReadError.TheVariants.{OutOfMemory};
ghost use Rattle.wire_protojson.specs.declared.refusal.WriteError.TheVariants as untold;
ghost use Rattle.wire_jsonfields.specs.Levels.{NothingMeant, ReadsWithin};
ghost use Rattle.wire_jsonfields.specs.Lists.{IsListTree, ListMeans};
ghost use Rattle.wire_jsonfields.specs.Told.{HasNoTree};

use crate::kind::{JsonKind, JsonValue, write_comma};
use std::alloc::{AllocError, Global};
use std::marker::PhantomData;
use wire_json::{Fault, FaultKind, Mark, Next};
use wire_protojson::{ReadError, WriteError, no_json, no_value};

/// A list, of which each element is a value of this kind; `null` is none.
pub struct Repeated<V: JsonValue> {
    value: PhantomData<V>,
}

impl<V: JsonValue> JsonValue for Repeated<V> {
    ghost use Rattle.std.specs.Prelude.{List};
    ghost use Rattle.std.specs.List.{AllByRecursion};
    ghost use Rattle.wire_jsonfields.specs.KindsBack.{all_back};
    ghost use Rattle.wire_jsonfields.specs.OneValues.{one_list};

    type Held = Vec<V::Held>;

    ghost Value = { List V.Value };

    ghost view = { λ v. map V.view v.items };

    ghost means = { ListMeans V.means };

    ghost tree = { IsListTree V.tree };

    ghost absent = { [] };

    ghost one_value = { one_list V.means V.one_value };

    ghost in_range = { AllByRecursion V.in_range };

    ghost back = { all_back V.means V.tree V.in_range V.back };

    fn read_json(
        alloc: Global,
        text: &[u8],
        at: usize,
        levels: u32,
    ) -> Result<(Vec<V::Held>, usize), ReadError> {
        read_elements::<V>(alloc, text, at, levels)
    }

    fn write_json(alloc: Global, out: &mut Vec<u8>, held: &Vec<V::Held>) -> Result<(), WriteError> {
        write_elements::<V>(alloc, out, held.as_slice())
    }
}

impl<V: JsonValue> JsonKind for Repeated<V> {
    fn absent_value(alloc: Global) -> Vec<V::Held> {
        Vec::new(alloc)
    }

    fn is_absent(held: &Vec<V::Held>) -> bool {
        held.is_empty()
    }
}

// The list at this place, whose elements nest one level less deep.
fn read_elements<V: JsonValue>(
    alloc: Global,
    text: &[u8],
    at: usize,
    levels: u32,
) -> Result<(Vec<V::Held>, usize), ReadError>
    ensures ok { IfOk result (λ read. ReadsWithin levels (ListMeans V.means)
        (drop at text.now) (map V.view read.0.items) (drop read.1 text.now)) }
    ensures behind { IfOk result (λ read. IsBehind at read.1 text.now) }
    ensures err { IfErr result (λ e. e ≢ OutOfMemory
        → NothingMeant levels (ListMeans V.means) (drop at text.now)) }
{
    let mut list = Vec::new(alloc);
    let mut next = match wire_json::first_element(text, at) {
        Ok(next) => next,
        Err(_other) => return Err(no_value(at)),
    };
    if levels == 0 {
        return Err(no_json(Fault {
            kind: FaultKind::TooDeep,
            at,
        }));
    }
    loop {
        match next {
            Next::End(after) => return Ok((list, after)),
            Next::Item(place) => match V::read_json(alloc, text, place, levels - 1) {
                Ok((held, after)) => {
                    push_held(&mut list, held)?;
                    next = match wire_json::next_element(text, after) {
                        Ok(next) => next,
                        Err(fault) => return Err(no_json(fault)),
                    };
                }
                Err(error) => return Err(error),
            },
        }
    }
}

fn push_held<T: Drop>(list: &mut Vec<T>, held: T) -> Result<(), AllocError>
    ensures { OnOk result (list.new.items ≡ list.old.items ++ held ∷ []) }
{
    match list.push(held) {
        Ok(()) => Ok(()),
        Err(_full) => Err(AllocError),
    }
}

fn write_elements<V: JsonValue>(
    alloc: Global,
    out: &mut Vec<u8>,
    list: &[V::Held],
) -> Result<(), WriteError>
    ensures ok { OnOk result ((json : Json) × IsListTree V.tree (map V.view list.now) json
        × (out.new.items ≡ out.old.items ++ written json)) }
    ensures err { OnErr result (Extends out.old.items out.new.items) }
    ensures no_text { IfErr result (λ e. e ≢ untold.OutOfMemory
        → HasNoTree (IsListTree V.tree) (map V.view list.now)) }
{
    wire_json::write_mark(out, Mark::BeginArray)?;
    let mut first = true;
    for held in list {
        write_comma(out, first)?;
        first = false;
        V::write_json(alloc, out, held)?;
    }
    wire_json::write_mark(out, Mark::EndArray)?;
    Ok(())
}

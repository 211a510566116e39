//! A message that holds itself, also as one of a oneof.
ghost use Rattle.wire_samples.specs.Rule.{rule_value};

use bytes::Buf;
use std::alloc::Global;
use std::slice;
use wire_codec::{
    DecodeContext, DecodeError, EncodeError, EncodeSink, MessageFields, SizeCache, Tag,
    UnknownFields,
};
use wire_fields::{
    Alone, Always, Dropped, Implicit, Kind, Known, Parts, Place, RecursiveAlone, RecursiveMember,
    Rest, Text, Uint64, keep, merge_held, push_message, slice_size, write_slice,
};

/// A rule: its test, and others that hold besides.
#[cycle(rule)]
#[derive(Clone, Debug, Drop, PartialEq)]
pub struct Rule {
    pub name: String,
    pub test: Option<RuleTest>,
    pub all: Vec<Rule>,
    pub unknown: UnknownFields,
}

/// What a rule tests.
#[cycle(rule)]
#[derive(Clone, Debug, Drop, PartialEq)]
pub enum RuleTest {
    Word(String),
    Not(Box<Rule>),
    Count(u64),
}

impl RecursiveMember<Rule> for Rule {
    ghost use Rattle.wire_fields.specs.NestTable.{alone};
    ghost use Rattle.wire_samples.specs.Rule.{RuleLeaf, rule, rule_counted};

    ghost Sort = { Unit {0} };

    ghost Leaf = { RuleLeaf };

    ghost sort = { tt };

    ghost view = { rule_value };

    ghost held_sort = { λ m. tt };

    ghost held_view = { rule_value };

    ghost family = { alone rule };

    ghost counted = { rule_counted };

    fn empty(alloc: Global) -> Rule {
        Rule {
            name: <Implicit<Text> as Kind>::empty(alloc),
            test: None,
            all: Vec::new(alloc),
            unknown: UnknownFields::new(alloc),
        }
    }

    fn rows() -> usize {
        2
    }

    fn number(row: usize) -> u32 {
        match row {
            0 => 3,
            _ => 4,
        }
    }

    fn place(number: u32) -> Place {
        match number {
            3 => Place::Once(0),
            4 => Place::Each(1, 88),
            _ => Place::Leaf,
        }
    }

    fn new_in(alloc: Global, _row: usize) -> Rule {
        Rule::empty(alloc)
    }

    fn take(&mut self, alloc: Global, row: usize) -> Rule {
        match row {
            0 => {
                match self.test.take() {
                    Some(RuleTest::Not(message)) => Box::into_inner(message),
                    _ => Rule::empty(alloc),
                }
            }
            _ => Rule::empty(alloc),
        }
    }

    fn put(&mut self, alloc: Global, row: usize, message: Rule) -> Result<(), DecodeError> {
        match row {
            0 => {
                self.test = Some(RuleTest::Not(Box::new(alloc, message)?));
                Ok(())
            }
            _ => Ok(()),
        }
    }

    fn push(&mut self, row: usize, message: Rule) -> Result<(), DecodeError> {
        match row {
            1 => push_message(&mut self.all, message),
            _ => Ok(()),
        }
    }

    fn run_len(&self, run: usize, cache: &mut SizeCache) -> Result<u64, EncodeError> {
        match run {
            0 => {
                let name: Known<Implicit<Text>> = Known {
                    number: 1,
                    held: &self.name,
                };
                match &self.test {
                    Some(RuleTest::Word(value)) => {
                        let test: Known<Always<Text>> = Known {
                            number: 2,
                            held: value,
                        };
                        (name, test).len(cache)
                    }
                    Some(RuleTest::Count(value)) => {
                        let test: Known<Always<Uint64>> = Known {
                            number: 5,
                            held: value,
                        };
                        (name, test).len(cache)
                    }
                    _ => (name, Dropped).len(cache),
                }
            }
            1 => Ok(0),
            _ => {
                let rest = Rest {
                    fields: &self.unknown,
                };
                rest.len(cache)
            }
        }
    }

    fn put_run<S: EncodeSink>(
        &self,
        run: usize,
        cache: &mut SizeCache,
        sink: &mut S,
    ) -> Result<(), EncodeError> {
        match run {
            0 => {
                let name: Known<Implicit<Text>> = Known {
                    number: 1,
                    held: &self.name,
                };
                match &self.test {
                    Some(RuleTest::Word(value)) => {
                        let test: Known<Always<Text>> = Known {
                            number: 2,
                            held: value,
                        };
                        (name, test).put(cache, sink)
                    }
                    Some(RuleTest::Count(value)) => {
                        let test: Known<Always<Uint64>> = Known {
                            number: 5,
                            held: value,
                        };
                        (name, test).put(cache, sink)
                    }
                    _ => (name, Dropped).put(cache, sink),
                }
            }
            1 => Ok(()),
            _ => {
                let rest = Rest {
                    fields: &self.unknown,
                };
                rest.put(cache, sink)
            }
        }
    }

    fn merge_leaf<B: Buf>(
        &mut self,
        alloc: Global,
        tag: Tag,
        buf: &mut B,
        context: &mut DecodeContext,
    ) -> Result<(), DecodeError> {
        match tag.field_number() {
            1 => <Implicit<Text> as Kind>::merge(alloc, tag, &mut self.name, buf, context),
            2 => {
                let mut value = <Always<Text> as Kind>::empty(alloc);
                <Always<Text> as Kind>::merge(alloc, tag, &mut value, buf, context)?;
                self.test = Some(RuleTest::Word(value));
                Ok(())
            }
            5 => {
                let mut value = <Always<Uint64> as Kind>::empty(alloc);
                <Always<Uint64> as Kind>::merge(alloc, tag, &mut value, buf, context)?;
                self.test = Some(RuleTest::Count(value));
                Ok(())
            }
            _ => keep(alloc, tag, &mut self.unknown, buf, context),
        }
    }
}

impl RecursiveAlone for Rule {
    ghost use Rattle.std.proofs.Common.{refl};
    ghost use Rattle.wire_samples.specs.Rule.{rule_leaf};

    ghost same_view = { λ m. refl };

    ghost same_sort = { λ m. refl };

    ghost holds_itself = { λ row. refl };

    ghost single = { λ reading s. rule_leaf.single reading };

    fn row(&self, row: usize) -> &[Rule] {
        match row {
            0 => {
                match &self.test {
                    Some(RuleTest::Not(message)) => slice::from_ref(message),
                    _ => &[],
                }
            }
            1 => &self.all,
            _ => &[],
        }
    }
}

impl MessageFields for Rule {
    ghost use Rattle.wire_samples.specs.Rule.{RuleValue, rule, rule_single};
    ghost use Rattle.wire_fields.specs.NestTable.{nest_records, nest_takes, empty_of};

    ghost Value = { RuleValue };

    ghost view = { rule_value };

    ghost records = { nest_records rule };

    ghost default = { empty_of rule };

    ghost takes = { nest_takes rule };

    ghost single = { rule_single };

    fn default_value(alloc: Global) -> Rule {
        Rule::empty(alloc)
    }

    fn compute_size(&self, cache: &mut SizeCache) -> Result<u32, EncodeError> {
        slice_size(Alone(slice::from_ref(self)), 0, cache)
    }

    fn write_to<S: EncodeSink>(
        &self,
        cache: &mut SizeCache,
        sink: &mut S,
    ) -> Result<(), EncodeError> {
        write_slice(Alone(slice::from_ref(self)), 0, cache, sink)
    }

    fn merge_field<B: Buf>(
        &mut self,
        alloc: Global,
        tag: Tag,
        buf: &mut B,
        context: &mut DecodeContext,
    ) -> Result<(), DecodeError> {
        merge_held(self, alloc, tag, buf, context)
    }

    fn clear(&mut self) {
        <Implicit<Text> as Kind>::clear(&mut self.name);
        self.test = None;
        self.all.clear();
        self.unknown.clear();
    }
}

//! A message that holds itself, as a table of its fields.
ghost use Rattle.std.specs.Prelude.{◌≡◌};
ghost use Rattle.wire_samples.specs.Node.{node_value, unknown_of};

use bytes::Buf;
use std::alloc::Global;
use std::slice;
use wire_codec::{
    DecodeContext, DecodeError, EncodeError, EncodeSink, MessageFields, MessageName, SizeCache,
    Tag, UnknownFields, laws,
};
use wire_fields::{
    Alone, Implicit, Kind, Known, Parts, Place, RecursiveAlone, RecursiveMember, Rest, Sint64,
    keep, merge_held, push_message, slice_size, write_slice,
};

// How many bytes of element memory each of the children takes.
const CHILD_BYTES: usize = 64;

/// A node of a tree, with embedded messages and a group. Fields that a schema of later date has are
/// kept. Each of `children` is charged 64 bytes of element memory.
#[derive(Clone, Debug, Drop, PartialEq)]
pub struct Node {
    pub value: i64,
    pub child: Option<Box<Node>>,
    pub children: Vec<Node>,
    pub group: Option<Box<Node>>,
    unknown: UnknownFields,
}

impl Node {
    /// The fields that decoding found and this type does not know.
    pub fn unknown(&self) -> &UnknownFields
        ensures { result.now ≡ unknown_of (node_value self.now) }
    {
        &self.unknown
    }
}

impl MessageName for Node {
    const PACKAGE: &'static str = "wire.samples";

    const NAME: &'static str = "Node";

    const FULL_NAME: &'static str = "wire.samples.Node";

    const TYPE_URL: &'static str = "type.googleapis.com/wire.samples.Node";
}

impl RecursiveMember<Node> for Node {
    ghost use Rattle.wire_fields.specs.NestTable.{alone};
    ghost use Rattle.wire_samples.specs.NodeTable.{NodeLeaf, node_nest, node_table, node_counted};

    ghost Sort = { Unit {0} };

    ghost Leaf = { NodeLeaf };

    ghost sort = { tt };

    ghost view = { node_nest };

    ghost held_sort = { λ m. tt };

    ghost held_view = { node_nest };

    ghost family = { alone node_table };

    ghost counted = { node_counted };

    #[inline(always)]
    fn empty(alloc: Global) -> Node {
        Node {
            value: <Implicit<Sint64> as Kind>::empty(alloc),
            child: None,
            children: Vec::new(alloc),
            group: None,
            unknown: UnknownFields::new(alloc),
        }
    }

    #[inline(always)]
    fn rows() -> usize {
        3
    }

    #[inline(always)]
    fn number(row: usize) -> u32 {
        match row {
            0 => 2,
            1 => 3,
            _ => 4,
        }
    }

    #[inline(always)]
    fn place(number: u32) -> Place {
        match number {
            2 => Place::Once(0),
            3 => Place::Each(1, CHILD_BYTES),
            4 => Place::Grouped(2),
            _ => Place::Leaf,
        }
    }

    #[inline(always)]
    fn new_in(alloc: Global, _row: usize) -> Node {
        Node::empty(alloc)
    }

    #[inline(always)]
    fn take(&mut self, alloc: Global, row: usize) -> Node {
        match row {
            0 => {
                match self.child.take() {
                    Some(message) => Box::into_inner(message),
                    None => Node::empty(alloc),
                }
            }
            2 => {
                match self.group.take() {
                    Some(message) => Box::into_inner(message),
                    None => Node::empty(alloc),
                }
            }
            _ => Node::empty(alloc),
        }
    }

    #[inline(always)]
    fn put(&mut self, alloc: Global, row: usize, message: Node) -> Result<(), DecodeError> {
        match row {
            0 => {
                self.child = Some(Box::new(alloc, message)?);
                Ok(())
            }
            2 => {
                self.group = Some(Box::new(alloc, message)?);
                Ok(())
            }
            _ => Ok(()),
        }
    }

    #[inline(always)]
    fn push(&mut self, row: usize, message: Node) -> Result<(), DecodeError> {
        match row {
            1 => push_message(&mut self.children, message),
            _ => Ok(()),
        }
    }

    #[inline(always)]
    fn run_len(&self, run: usize, cache: &mut SizeCache) -> Result<u64, EncodeError> {
        match run {
            0 => {
                let value: Known<Implicit<Sint64>> = Known {
                    number: 1,
                    held: &self.value,
                };
                value.len(cache)
            }
            1 => Ok(0),
            2 => Ok(0),
            _ => {
                let rest = Rest {
                    fields: &self.unknown,
                };
                rest.len(cache)
            }
        }
    }

    #[inline(always)]
    fn put_run<S: EncodeSink>(
        &self,
        run: usize,
        cache: &mut SizeCache,
        sink: &mut S,
    ) -> Result<(), EncodeError> {
        match run {
            0 => {
                let value: Known<Implicit<Sint64>> = Known {
                    number: 1,
                    held: &self.value,
                };
                value.put(cache, sink)
            }
            1 => Ok(()),
            2 => Ok(()),
            _ => {
                let rest = Rest {
                    fields: &self.unknown,
                };
                rest.put(cache, sink)
            }
        }
    }

    #[inline(always)]
    fn merge_leaf<B: Buf>(
        &mut self,
        alloc: Global,
        tag: Tag,
        buf: &mut B,
        context: &mut DecodeContext,
    ) -> Result<(), DecodeError> {
        match tag.field_number() {
            1 => <Implicit<Sint64> as Kind>::merge(alloc, tag, &mut self.value, buf, context),
            _ => keep(alloc, tag, &mut self.unknown, buf, context),
        }
    }
}

impl RecursiveAlone for Node {
    ghost use Rattle.std.proofs.Common.{refl};
    ghost use Rattle.wire_samples.specs.NodeTable.{node_leaf};

    ghost same_view = { λ m. refl };

    ghost same_sort = { λ m. refl };

    ghost holds_itself = { λ row. refl };

    ghost single = { λ reading s. node_leaf.single reading };

    #[inline(always)]
    fn row(&self, row: usize) -> &[Node] {
        match row {
            0 => {
                match &self.child {
                    Some(message) => slice::from_ref(message),
                    None => &[],
                }
            }
            1 => &self.children,
            2 => {
                match &self.group {
                    Some(message) => slice::from_ref(message),
                    None => &[],
                }
            }
            _ => &[],
        }
    }
}

impl MessageFields for Node {
    ghost use Rattle.wire_samples.specs.Node.{NodeValue, node_value, node_records, default_node};
    ghost use Rattle.wire_samples.specs.NodeSteps.{NodeTakes};
    ghost use Rattle.wire_samples.specs.NodeSingle.{node_single};

    ghost Value = { NodeValue };

    ghost view = { node_value };

    ghost records = { node_records };

    ghost default = { default_node };

    ghost takes = { NodeTakes };

    ghost single = { node_single };

    fn default_value(alloc: Global) -> Node {
        <Node as RecursiveMember<Node>>::empty(alloc)
    }

    fn compute_size(&self, cache: &mut SizeCache) -> Result<u32, EncodeError> {
        slice_size(Alone(slice::from_ref(self)), 0, cache)
    }

    fn write_to<S: EncodeSink>(
        &self,
        cache: &mut SizeCache,
        sink: &mut S,
    ) -> Result<(), EncodeError> {
        write_slice(Alone(slice::from_ref(self)), 0, cache, sink)
    }

    fn merge_field<B: Buf>(
        &mut self,
        alloc: Global,
        tag: Tag,
        buf: &mut B,
        context: &mut DecodeContext,
    ) -> Result<(), DecodeError> {
        laws::records_in_order();
        merge_held(self, alloc, tag, buf, context)
    }

    fn clear(&mut self) {
        <Implicit<Sint64> as Kind>::clear(&mut self.value);
        self.child = None;
        self.children.clear();
        self.group = None;
        self.unknown.clear();
    }
}

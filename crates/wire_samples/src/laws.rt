//! Laws of the message types: each function is a theorem, and does nothing.
ghost use Rattle.std.specs.Prelude.{false};
ghost use Rattle.wire_codec.specs.Charge.{charge};
ghost use Rattle.wire_fields.specs.Returned.{ReadsBack};
ghost use Rattle.wire_fields.specs.Stays.{DecodesInRange};
ghost use Rattle.wire_samples.specs.Laws.{IsTable, NodesFoldBack, PersonsFoldBack, RepeatsFoldBack};
ghost use Rattle.wire_samples.specs.Laws.{StaysInRange, DecodedFoldsBack};
ghost use Rattle.wire_samples.specs.Node.{node_value, default_node, node_records, IsNode};
ghost use Rattle.wire_samples.specs.NodeCharge.{node_charge};
ghost use Rattle.wire_samples.specs.NodePayloads.{PayloadsAreEmbedded};
ghost use Rattle.wire_samples.specs.NodeSteps.{NodeTakes, NodesFoldByTheirStep};
ghost use Rattle.wire_samples.specs.Person.{person_value, default_person};
ghost use Rattle.wire_samples.specs.Person.{person_records, PersonTakes, IsPerson};
ghost use Rattle.wire_samples.specs.Repeat.{repeat_records, RepeatTakes};
ghost use Rattle.wire_samples.specs.Rule.{rule_shape};
ghost use Rattle.wire_samples.specs.RuleBack.{rule_range};

use crate::node::Node;
use crate::person::Person;
use crate::repeat::Repeat;
use crate::rule::Rule;
use wire_codec::{Message, laws};
use wire_fields::laws::grounds;

/// A `Person` takes and writes the records of its table, over its fields.
pub fn person_is_as_its_table()
    ensures { IsTable ⟦<Person as Message>⟧.view person_value
        ⟦<Person as Message>⟧.default default_person ⟦<Person as Message>⟧.takes PersonTakes
        ⟦<Person as Message>⟧.records person_records }
{}

/// A `Node` takes and writes the records of its table, over its fields.
pub fn node_is_as_its_table()
    ensures { IsTable ⟦<Node as Message>⟧.view node_value
        ⟦<Node as Message>⟧.default default_node ⟦<Node as Message>⟧.takes NodeTakes
        ⟦<Node as Message>⟧.records node_records }
{}

/// A `Repeat` takes and writes the records of its table, over its fields.
pub fn repeat_is_as_its_table()
    ensures { IsTable ⟦<Repeat as Message>⟧.view (λ m. m)
        ⟦<Repeat as Message>⟧.default (record { times = 0; extra = false })
        ⟦<Repeat as Message>⟧.takes RepeatTakes
        ⟦<Repeat as Message>⟧.records repeat_records }
{}

/// The records of a `Person` fold back to it, where its size is one that a message may have and it
/// is as `persons_stay_in_range` says, and are charged for its unknown fields. With
/// `laws::text_decodes` of `wire_codec`, what is written of it decodes to it.
pub fn persons_fold_back()
    ensures { PersonsFoldBack ⟦<Person as Message>⟧.takes ⟦<Person as Message>⟧.records
        ⟦<Person as Message>⟧.default }
{
    laws::joined_records_add_up();
    laws::fields_are_plain();
    laws::grammar::charges_add_up();
    laws::grammar::shortest_reads_back();
    laws::scalar::values_read_back();
}

/// What decoding leaves of a `Person` is in range, and has no unknown field, at its top, of a
/// number that the type knows: as the records of bytes are taken, whatever the call.
pub fn persons_stay_in_range()
    ensures { StaysInRange ⟦<Person as Message>⟧.takes ⟦<Person as Message>⟧.default IsPerson }
{
    laws::spelled_are_fitting();
    laws::grammar::spelled_are_numbered();
}

/// A `Person` that these bytes decode to is in range and folds back. The walk over the bytes is
/// compiled away.
pub fn decoded_persons_fold_back(bytes: &[u8])
    ensures { DecodedFoldsBack ⟦<Person as Message>⟧.takes ⟦<Person as Message>⟧.records
        ⟦<Person as Message>⟧.default IsPerson (λ m. charge m.unknown) bytes.now }
{
    persons_stay_in_range();
    persons_fold_back();
    laws::slice_has_bytes(bytes);
}

/// The records of a `Node` fold back to it, where its size is one that a message may have and it is
/// as `nodes_stay_in_range` says. They are charged for what it holds, one level down, for 64 bytes
/// for each of its children, and for its unknown fields. With `laws::text_decodes` of `wire_codec`,
/// what is written of it decodes to it.
pub fn nodes_fold_back()
    ensures { NodesFoldBack ⟦<Node as Message>⟧.takes ⟦<Node as Message>⟧.records
        ⟦<Node as Message>⟧.default }
{
    laws::joined_records_add_up();
    laws::fields_are_plain();
    laws::grammar::charges_add_up();
    laws::grammar::shortest_text_spells();
    laws::scalar::values_read_back();
}

/// What decoding leaves of a `Node` is in range, with the nodes that it holds, and each has no
/// unknown field, at its top, of a number that the type knows: as the records of bytes are taken,
/// whatever the call.
pub fn nodes_stay_in_range()
    ensures { StaysInRange ⟦<Node as Message>⟧.takes ⟦<Node as Message>⟧.default IsNode }
{
    laws::spelled_are_fitting();
    laws::grammar::spelled_are_numbered();
}

/// A `Node` that these bytes decode to is in range and folds back. The walk over the bytes is
/// compiled away.
pub fn decoded_nodes_fold_back(bytes: &[u8])
    ensures { DecodedFoldsBack ⟦<Node as Message>⟧.takes ⟦<Node as Message>⟧.records
        ⟦<Node as Message>⟧.default IsNode node_charge bytes.now }
{
    nodes_stay_in_range();
    nodes_fold_back();
    laws::slice_has_bytes(bytes);
}

/// A node takes records one after another by its step, as any message type does.
pub fn nodes_fold_by_their_step()
    ensures { NodesFoldByTheirStep }
{}

/// What `Node` takes between the length and the end of a payload is the embedded message, one level
/// down: its loops say no less than the calls of the trait.
pub fn payloads_are_embedded()
    ensures { PayloadsAreEmbedded NodeTakes }
{
    laws::delimited_is_read();
}

/// The records of a `Repeat` fold back to it, and are not charged.
pub fn repeats_fold_back()
    ensures { RepeatsFoldBack ⟦<Repeat as Message>⟧.takes ⟦<Repeat as Message>⟧.records
        ⟦<Repeat as Message>⟧.default }
{
    laws::grammar::charges_add_up();
}

/// What is written of a `Rule` decodes to it, where the limits suffice.
pub fn rules_read_back()
    ensures { ReadsBack rule_shape rule_range }
{
    grounds();
    laws::text_decodes::<Rule>();
}

/// What bytes decode to as `Rule` is in range, where each rule within it takes at most 2,147,483,647
/// bytes and any other payload less than 2^64.
pub fn rules_decode_in_range()
    ensures { DecodesInRange rule_shape rule_range }
{
    grounds();
}

//! The oneof of `Batch`: its members as choices.
ghost use Rattle.std.specs.Prelude.{◌≡◌, option_map};
ghost use Rattle.wire_jsonfields.specs.Batch.{origin-file, origin-template};

use crate::boxed::Boxed;
use crate::choice::{JsonChoice, write_chosen};
use crate::kind::{Implicit, Maybe, read_field};
use crate::known::FieldName;
use crate::object::PlacedMember;
use crate::sample::Sample;
use std::alloc::Global;
use wire_protojson::{ReadError, WriteError};

/// Where a batch is from.
#[derive(Drop)]
pub enum Origin {
    File(String),
    Template(Box<Sample>),
}

const FILE: FieldName = FieldName {
    name: "file",
    json_name: "file",
};

const TEMPLATE: FieldName = FieldName {
    name: "template_sample",
    json_name: "templateSample",
};

pub struct OriginFile;

impl JsonChoice for OriginFile {
    ghost use Rattle.std.specs.Prelude.{ℕ, List, option_map, string_bytes};
    ghost use Rattle.wire_jsonfields.specs.Batch.{origin-file, FileSays, FileTrees, file-unsaid, one_file, file-names, IsFileInRange, file-back};

    type Oneof = Origin;

    type Held = String;

    ghost Value = { List ℕ };

    ghost view = { λ s. string_bytes s };

    ghost seen = { λ o. option_map (λ s. string_bytes s) (origin-file o) };

    ghost names = { file-names };

    ghost says = { FileSays };

    ghost trees = { FileTrees };

    ghost unsaid = { file-unsaid };

    ghost one_value = { one_file };

    ghost in_range = { IsFileInRange };

    ghost back = { file-back };

    fn is_named(name: &str) -> bool {
        name == FILE.name || name == FILE.json_name
    }

    fn read(
        alloc: Global,
        text: &[u8],
        members: &[PlacedMember<'_>],
        levels: u32,
    ) -> Result<Option<String>, ReadError> {
        read_field::<Maybe<Implicit<String>>>(alloc, text, members, levels, &FILE)
    }

    fn is_chosen(oneof: &Origin) -> bool {
        file_of(oneof).is_some()
    }

    fn write(
        alloc: Global,
        out: &mut Vec<u8>,
        first: bool,
        oneof: &Origin,
    ) -> Result<bool, WriteError> {
        write_chosen::<Implicit<String>>(alloc, out, first, &FILE, file_of(oneof))
    }
}

fn file_of(origin: &Origin) -> Option<&String>
    ensures { option_map (λ h. h.now) result ≡ origin-file origin.now }
{
    match origin {
        Origin::File(value) => Some(value),
        _ => None,
    }
}

pub struct OriginTemplate;

impl JsonChoice for OriginTemplate {
    ghost use Rattle.std.specs.Prelude.{ℕ, List, option_map, string_bytes};
    ghost use Rattle.wire_jsonfields.specs.Batch.{origin-template, TemplateSays, TemplateTrees, template-unsaid, one_template, template-value, template-names, IsTemplateInRange, template-back};
    ghost use Rattle.wire_jsonfields.specs.Sample.{Sample-Value};

    type Oneof = Origin;

    type Held = Box<Sample>;

    ghost Value = { Sample-Value };

    ghost view = { template-value };

    ghost seen = { λ o. option_map template-value (origin-template o) };

    ghost names = { template-names };

    ghost says = { TemplateSays };

    ghost trees = { TemplateTrees };

    ghost unsaid = { template-unsaid };

    ghost one_value = { one_template };

    ghost in_range = { IsTemplateInRange };

    ghost back = { template-back };

    fn is_named(name: &str) -> bool {
        name == TEMPLATE.name || name == TEMPLATE.json_name
    }

    fn read(
        alloc: Global,
        text: &[u8],
        members: &[PlacedMember<'_>],
        levels: u32,
    ) -> Result<Option<Box<Sample>>, ReadError> {
        read_field::<Maybe<Boxed<Sample>>>(alloc, text, members, levels, &TEMPLATE)
    }

    fn is_chosen(oneof: &Origin) -> bool {
        template_of(oneof).is_some()
    }

    fn write(
        alloc: Global,
        out: &mut Vec<u8>,
        first: bool,
        oneof: &Origin,
    ) -> Result<bool, WriteError> {
        write_chosen::<Boxed<Sample>>(alloc, out, first, &TEMPLATE, template_of(oneof))
    }
}

fn template_of(origin: &Origin) -> Option<&Box<Sample>>
    ensures { option_map (λ h. h.now) result ≡ origin-template origin.now }
{
    match origin {
        Origin::Template(value) => Some(value),
        _ => None,
    }
}

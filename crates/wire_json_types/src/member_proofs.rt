//! The proof of a member of a oneof: that it has a text where the oneof is that and has one.
use crate::members::described;
use crate::parts::set_names;
use wire_definitions::definition_imports;
use wire_descriptor::DescriptorProto;
use wire_schema::{GenerateError, Words};

/// The file of the proof in its crate, by the words of the member.
pub const MEMBER_PROOF: &str = "proofs/$module$_json/$part_type$JsonChoice/write/Answers.antt";

const USES: &str = "\
Rattle.wire_jsonfields.proofs.Untold chosen_untold
$json_page$ $part$-trees
$json_page$ $part$-view
";

const PROOF: &str = "\
$imports$use Rattle.$crate$_json.proofs.$module$_json.$part_type$JsonChoice.write.Goals as goal

pub returns-clause-no_text : goal.returns-clause-no_text
returns-clause-no_text c =
    chosen_untold $part$-trees (λ h. h.now) $part$-view _ _ c.$field$_of.ensures
    c.write_chosen.result c.write_chosen.ensures.no_text
";

/// The words of a member of a oneof, which are those of the page too, and its proof.
pub fn member_proof(
    page: &Words,
    descriptor: &DescriptorProto,
    variant: &Words,
) -> Result<(Words, String), GenerateError> {
    let mut words = Words::like(variant);
    words.copy(page, &["json_page", "crate", "name", "module"]);
    if let Some(field) = described(descriptor, variant) {
        set_names(field, &mut words)?;
    }
    words.fill("uses", USES);
    definition_imports(&mut words);
    words.fill("text", PROOF);
    let proof = words.finish("text")?;
    Ok((words, proof))
}

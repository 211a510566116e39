//! The laws of the messages of a crate, and their proofs.
use wire_schema::Words;

/// Whether they are asked for.
pub fn has_laws(base: &Words) -> bool {
    base.get("without_laws").is_empty()
}

pub const LAWS: &str = "\
$heading$$charge_uses$ghost use Rattle.wire_fields.specs.Returned.{ReadsBack};
ghost use Rattle.wire_fields.specs.Stays.{DecodesInRange};
$ghost_imports$
use wire_codec::laws::text_decodes;
use wire_fields::laws::grounds;
$laws$";

pub const LAW_USES: &str = "\
Rattle.$crate$.specs.$name$ $module$-range
Rattle.$crate$.specs.$name$ $module$-shape
";

pub const LAW: &str = "
/// What is written of each `$name$` in range decodes to it, where the limits suffice.
pub fn $module$_reads_back()
    ensures { ReadsBack $module$-shape $module$-range }
{
    grounds();
    text_decodes::<crate::$name$>();
}
";

pub const STAY_LAW: &str = "
/// What bytes decode to as `$name$` is in range, where each message and group
/// within it takes at most 2,147,483,647 bytes and any other payload less than 2^64.
pub fn $module$_decodes_in_range()
    ensures { DecodesInRange $module$-shape $accounted_range$ }
{
    grounds();
}
";

pub const STAY_LAW_ANSWERS: &str = "\
use Rattle.$crate$.specs.$name$Stays.{$module$-stays}
use Rattle.wire_fields.specs.Stays.{decodes_in_range}
use Rattle.$crate$.proofs.laws.$module$_decodes_in_range.Goals as goal

pub returns : goal.returns
returns c = decodes_in_range c.grounds.ensures ($module$-stays c.grounds.ensures)
";

/// The same where it follows from what records are charged that are left.
pub const CHARGED_LAW: &str = "
/// What is written of each `$name$` in range decodes to it, whatever each record is charged that a map
/// of a closed enum left, where the limits suffice.
pub fn $module$_reads_back()
    ensures { (charges : List ℕ → ℕ → Payload → Charge)
        → ReadsBack $module$-shape ($module$-range charges) }
{
    grounds();
    text_decodes::<crate::$name$>();
}
";

pub const ACCOUNT_USE: &str = "\
Rattle.$crate$.specs.$name$ $module$-account
";

pub const CHARGE_USES: &str = "\
ghost use Rattle.std.specs.Prelude.{ℕ, List};
ghost use Rattle.wire_codec.specs.Field.{Payload};
ghost use Rattle.wire_codec.specs.Limits.{Charge};
";

pub const CHARGED_LAW_ANSWERS: &str = "\
use Rattle.$crate$.specs.$name$.{$module$-returned}
use Rattle.wire_fields.specs.Returned.{reads_back}
use Rattle.$crate$.proofs.laws.$module$_reads_back.Goals as goal

pub returns : goal.returns
returns c =
    λ charges. reads_back ($module$-returned charges c.grounds.ensures) c.text_decodes.ensures
";

pub const LAW_ANSWERS: &str = "\
use Rattle.$crate$.specs.$name$.{$module$-returned}
use Rattle.wire_fields.specs.Returned.{reads_back}
use Rattle.$crate$.proofs.laws.$module$_reads_back.Goals as goal

pub returns : goal.returns
returns c = reads_back ($module$-returned c.grounds.ensures) c.text_decodes.ensures
";

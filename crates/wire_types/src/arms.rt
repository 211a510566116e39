//! The arms of the records of a leaf, one for each field number.
use wire_definitions::WIDTH;
use wire_schema::Words;

// Of a field that leaves none of its records, of one of a closed enum, and of a list of these.
const ARM: &str = "            $number$ => <$kind$ as Kind>::merge(alloc, tag, &mut self.$field$, \
                   buf, context),\n";

const LONG_ARM: &str = "            $number$ => <$kind$ as Kind>::merge(
                alloc,
                tag,
                &mut self.$field$,
                buf,
                context,
            ),
";

const CLOSED_ARM: &str =
    "            $number$ => $call$(tag, &mut self.$field$, &mut self.unknown, \
                          buf, context),\n";

const LONG_CLOSED_ARM: &str = "            $number$ => {
                $call$(tag, &mut self.$field$, &mut self.unknown, buf, context)
            }
";

const EACH_ARM: &str = "            $number$ => $call$(
                alloc,
                tag,
                &mut self.$field$,
                &mut self.unknown,
                buf,
                context,
            ),
";

// Of a map of a closed enum.
const MAP_ARM: &str = "            $number$ => <$kind$ as ClosedMap>::merge_closed(
                alloc,
                tag,
                &mut self.$field$,
                &mut self.unknown,
                buf,
                context,
            ),
";

/// Puts the call of one number, in one line where it has room there.
pub fn put_arm(page: &mut Words) {
    let is_map = page.get("kind").starts_with("Map<");
    let (arm, long) = match page.get("call") {
        "merge_closed" if is_map => (MAP_ARM, MAP_ARM),
        "merge" => (ARM, LONG_ARM),
        "merge_closed_each" => (EACH_ARM, EACH_ARM),
        _ => (CLOSED_ARM, LONG_CLOSED_ARM),
    };
    page.fill("arm", arm);
    // (its line's end counted)
    let is_short = page.get("arm").len() <= WIDTH + 1;
    page.append("arms", if is_short { "$arm$" } else { long });
}

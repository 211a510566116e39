//! The code of a message type that holds itself, alone or as one of several that hold one another:
//! what a message moved out of it is, and how it is measured, written and merged.
use wire_schema::Template;

/// What a type that holds itself alone has of its own: a message moved out of it is of the type
/// itself.
pub const ALONE: [Template; 13] = [
    (
        "own_uses",
        "std::slice from_ref
wire_fields Alone
wire_fields RecursiveAlone
wire_fields merge_held
wire_fields slice_size
wire_fields write_slice
",
    ),
    (
        "head_ghosts",
        "ghost use Rattle.$crate$.specs.$name$.{$module$-value};\n\n",
    ),
    ("moved", "$name$"),
    ("own_moved", "$name$::empty(alloc)"),
    ("own_slice", "&[]"),
    ("matched", "row"),
    ("member_ghosts", ALONE_GHOSTS),
    ("row_head", ALONE_ROW),
    ("size_call", "slice_size(Alone(from_ref(self)), 0, cache)"),
    (
        "write_call",
        "write_slice(Alone(from_ref(self)), 0, cache, sink)",
    ),
    (
        "merge_held",
        "        merge_held(self, alloc, tag, buf, context)\n",
    ),
    ("others", ""),
    ("moved_shut", ""),
];

const ALONE_GHOSTS: &str = "    ghost use Rattle.wire_fields.specs.NestTable.{alone};
    ghost use Rattle.$crate$.specs.$name$.{$name$-Leaf};
    ghost use Rattle.$crate$.specs.$name$.{$module$-counted};
    ghost use Rattle.$crate$.specs.$name$.{$module$-table};

    ghost Sort = { Unit {0} };

    ghost Leaf = { $name$-Leaf };

    ghost sort = { tt };

    ghost view = { $module$-value };

    ghost held_sort = { λ m. tt };

    ghost held_view = { $module$-value };

    ghost family = { alone $module$-table };
";

const ALONE_ROW: &str = "impl RecursiveAlone for $name$ {
    ghost use Rattle.std.proofs.Common.{refl};
    ghost use Rattle.$crate$.specs.$name$.{$module$-leaf};

    ghost same_view = { λ m. refl };

    ghost same_sort = { λ m. refl };

    ghost holds_itself = { λ row. refl };

    ghost single = { λ reading s. $module$-leaf.single reading };

    fn row(&self, row: usize) -> &[$name$] {
";

/// What one of several that hold one another has of its own: a message moved out of it is one of an
/// enum of all of them.
pub const MEMBER: [Template; 12] = [
    (
        "own_uses",
        "crate::$family_module$ FamilyHeld
crate::$family_module$ FamilySlice
std::mem replace
std::slice from_ref
wire_fields merge_held
wire_fields slice_size
wire_fields write_slice
",
    ),
    (
        "head_ghosts",
        "ghost use Rattle.std.specs.Prelude.{◌<◌, ◌≡◌};
ghost use Rattle.wire_fields.specs.Nest.{row_at};
ghost use Rattle.$crate$.specs.$family_name$.{$name$-Sort, $module$-value, $module$-table};
ghost use Rattle.$crate$.specs.$family_name$.{family-holds, family-slice-sort, family-slice-values};

",
    ),
    ("moved", "FamilyHeld"),
    ("own_moved", "FamilyHeld::$name$($name$::empty(alloc))"),
    ("own_slice", "FamilySlice::$name$(&[])"),
    ("matched", "(row, message)"),
    ("member_ghosts", MEMBER_GHOSTS),
    ("row_head", MEMBER_ROW),
    (
        "size_call",
        "slice_size(FamilySlice::$name$(from_ref(self)), 0, cache)",
    ),
    (
        "write_call",
        "write_slice(FamilySlice::$name$(from_ref(self)), 0, cache, sink)",
    ),
    ("merge_held", MERGE_HELD),
    ("moved_shut", ")"),
];

const MEMBER_GHOSTS: &str = "    ghost use Rattle.$crate$.specs.$family_name$.{Family-Leaves};
    ghost use Rattle.$crate$.specs.$family_name$.{Family-Sorts};
    ghost use Rattle.$crate$.specs.$family_name$.{family-all};
    ghost use Rattle.$crate$.specs.$family_name$.{family-held-sort};
    ghost use Rattle.$crate$.specs.$family_name$.{family-held-value};
    ghost use Rattle.$crate$.specs.$family_name$.{$module$-counted};

    ghost Sort = { Family-Sorts };

    ghost Leaf = { Family-Leaves };

    ghost sort = { $name$-Sort };

    ghost view = { $module$-value };

    ghost held_sort = { family-held-sort };

    ghost held_view = { family-held-value };

    ghost family = { family-all };
";

const MEMBER_ROW: &str = "impl $name$ {
    // The messages of a row.
    pub(crate) fn row(&self, row: usize) -> FamilySlice<'_>
        requires { row < $module$-table.rows }
        ensures messages { family-slice-values result ≡ row_at row ($module$-value self.now) }
        ensures sort { family-slice-sort result ≡ family-holds $name$-Sort row }
    {
";

const MERGE_HELD: &str =
    "        let mut held = FamilyHeld::$name$(replace(self, $name$::empty(alloc)));
        let merged = merge_held(&mut held, alloc, tag, buf, context);
        match held {
            FamilyHeld::$name$(message) => *self = message,
$others$        }
        merged
";

/// What a row is, of a type that holds itself alone.
pub const ALONE_OF: [Template; 3] = [
    ("moved_open", ""),
    ("slice_open", ""),
    ("arm", "            $row$"),
];

/// What a row is by the type of its messages, of one of several that hold one another.
pub const MEMBER_OF: [Template; 3] = [
    ("moved_open", "FamilyHeld::$of_name$("),
    ("slice_open", "FamilySlice::$of_name$("),
    ("arm", "            ($row$, FamilyHeld::$of_name$(message))"),
];

/// A row that has one message at most.
pub const ONCE: [Template; 8] = [
    ("declared", "    pub $field$: Option<Box<$of_name$>>,\n"),
    ("emptied", "            $field$: None,\n"),
    ("cleared", "        $set_self$$field$ = None;\n"),
    ("named", "            $field$,\n"),
    (
        "places",
        "            $number$ => Place::$row_place$($row$),\n",
    ),
    (
        "rows",
        "            $row$ => {
                match &self.$field$ {
                    Some(message) => $slice_open$from_ref(message)$moved_shut$,
                    None => $slice_open$&[]$moved_shut$,
                }
            }
",
    ),
    (
        "takes",
        "            $row$ => {
                match self.$field$.take() {
                    Some(message) => $moved_open$Box::into_inner(message)$moved_shut$,
                    None => $moved_open$$of_name$::empty(alloc)$moved_shut$,
                }
            }
",
    ),
    (
        "arm_of_row",
        "$arm$ => {
                self.$field$ = Some(Box::new(alloc, message)?);
                Ok(())
            }
",
    ),
];

/// A row that has many.
pub const EACH: [Template; 6] = [
    ("declared", "    pub $field$: Vec<$of_name$>,\n"),
    ("emptied", "            $field$: Vec::new(alloc),\n"),
    ("cleared", "        $of_self$$field$.clear();\n"),
    ("named", "            $field$,\n"),
    (
        "places",
        "            $number$ => Place::$row_place$($row$, $size$),\n",
    ),
    (
        "rows",
        "            $row$ => $slice_open$&self.$field$$moved_shut$,\n",
    ),
];

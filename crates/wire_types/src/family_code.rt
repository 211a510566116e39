//! The code of message types that hold one another: the enums of all of them pass on what is asked.
use wire_definitions::{code_imports, set_heading};
use wire_schema::{GenerateError, Template, Words};

const FAMILY_USES: &str = "\
bytes Buf
std::alloc Global
wire_codec DecodeContext
wire_codec DecodeError
wire_codec EncodeError
wire_codec EncodeSink
wire_codec SizeCache
wire_codec Tag
wire_fields Place
wire_fields RecursiveHeld
wire_fields RecursiveMember
wire_fields RecursiveSlice
";

const WHAT: &str = "Messages that hold one another, as one type: $listed$.";

const FAMILY: &str = "\
$heading$$imports$
// One of them, moved out of a message or into it.
#[derive(Drop)]
pub(crate) enum FamilyHeld {
$helds$}

// Several of one type.
#[derive(Clone, Copy)]
pub(crate) enum FamilySlice<'a> {
$slices$}

impl<B: Buf> RecursiveHeld<B> for FamilyHeld {
    ghost use Rattle.$crate$.specs.$family_name$.{Family-Leaves};
    ghost use Rattle.$crate$.specs.$family_name$.{Family-Sorts};
    ghost use Rattle.$crate$.specs.$family_name$.{family-all};
    ghost use Rattle.$crate$.specs.$family_name$.{family-held-sort};
    ghost use Rattle.$crate$.specs.$family_name$.{family-held-value};
    ghost use Rattle.$crate$.specs.$family_name$.{family-singles};

    ghost Sort = { Family-Sorts };

    ghost Leaf = { Family-Leaves };

    ghost sort = { family-held-sort };

    ghost view = { family-held-value };

    ghost family = { family-all };

    ghost single = { family-singles };

    fn place(&self, number: u32) -> Place {
        match self {
$placed$        }
    }

    fn new_in(&self, alloc: Global, row: usize) -> FamilyHeld {
        match self {
$made$        }
    }

    fn take(&mut self, alloc: Global, row: usize) -> FamilyHeld {
        match self {
$taken$        }
    }

    fn put(&mut self, alloc: Global, row: usize, message: FamilyHeld) -> Result<(), DecodeError> {
        match self {
$put$        }
    }

    fn push(&mut self, row: usize, message: FamilyHeld) -> Result<(), DecodeError> {
        match self {
$pushed$        }
    }

    fn merge_leaf(
        &mut self,
        alloc: Global,
        tag: Tag,
        buf: &mut B,
        context: &mut DecodeContext,
    ) -> Result<(), DecodeError> {
        match self {
$merged$        }
    }
}

impl<'a> RecursiveSlice for FamilySlice<'a> {
    ghost use Rattle.$crate$.specs.$family_name$.{Family-Leaves};
    ghost use Rattle.$crate$.specs.$family_name$.{Family-Sorts};
    ghost use Rattle.$crate$.specs.$family_name$.{family-all};
    ghost use Rattle.$crate$.specs.$family_name$.{family-slice-counted};
    ghost use Rattle.$crate$.specs.$family_name$.{family-slice-sort};
    ghost use Rattle.$crate$.specs.$family_name$.{family-slice-values};

    ghost Sort = { Family-Sorts };

    ghost Leaf = { Family-Leaves };

    ghost sort = { family-slice-sort };

    ghost views = { family-slice-values };

    ghost family = { family-all };

    ghost counted = { family-slice-counted };

    fn count(self) -> usize {
        match self {
$counts$        }
    }

    fn rows(self) -> usize {
        match self {
$rows$        }
    }

    fn number(self, row: usize) -> u32 {
        match self {
$numbers$        }
    }

    fn is_grouped(self, row: usize) -> bool {
        match self {
$grouped$        }
    }

    fn row(self, index: usize, row: usize) -> FamilySlice<'a> {
        match self {
$row$        }
    }

    fn run_len(self, index: usize, run: usize, cache: &mut SizeCache) -> Result<u64, EncodeError> {
        match self {
$lens$        }
    }

    fn put_run<S: EncodeSink>(
        self,
        index: usize,
        run: usize,
        cache: &mut SizeCache,
        sink: &mut S,
    ) -> Result<(), EncodeError> {
        match self {
$puts$        }
    }
}
";

const OF_MEMBER: [Template; 17] = [
    ("uses", "crate::$module$ $name$\n"),
    ("helds", "    $name$($name$),\n"),
    ("slices", "    $name$(&'a [$name$]),\n"),
    (
        "placed",
        "            FamilyHeld::$name$(_) => $name$::place(number),\n",
    ),
    (
        "made",
        "            FamilyHeld::$name$(_) => $name$::new_in(alloc, row),\n",
    ),
    (
        "taken",
        "            FamilyHeld::$name$(own) => own.take(alloc, row),\n",
    ),
    (
        "put",
        "            FamilyHeld::$name$(own) => own.put(alloc, row, message),\n",
    ),
    (
        "pushed",
        "            FamilyHeld::$name$(own) => own.push(row, message),\n",
    ),
    (
        "merged",
        "            FamilyHeld::$name$(own) => own.merge_leaf(alloc, tag, buf, context),\n",
    ),
    (
        "counts",
        "            FamilySlice::$name$(own) => own.len(),\n",
    ),
    (
        "rows",
        "            FamilySlice::$name$(_) => $name$::rows(),\n",
    ),
    (
        "numbers",
        "            FamilySlice::$name$(_) => $name$::number(row),\n",
    ),
    (
        "grouped",
        "            FamilySlice::$name$(_) => $name$::is_grouped(row),\n",
    ),
    (
        "row",
        "            FamilySlice::$name$(own) => own[index].row(row),\n",
    ),
    (
        "lens",
        "            FamilySlice::$name$(own) => own[index].run_len(run, cache),\n",
    ),
    (
        "puts",
        "            FamilySlice::$name$(own) => own[index].put_run(run, cache, sink),\n",
    ),
    ("listed", "$and$`$name$`"),
];

const ASKED: &str = "
impl<'a> RequiredSlice for FamilySlice<'a> {
    ghost use Rattle.$crate$.specs.$family_name$.{Family-Leaves};
    ghost use Rattle.$crate$.specs.$family_name$.{Family-Sorts};
    ghost use Rattle.$crate$.specs.$family_name$.{family-all};
    ghost use Rattle.$crate$.specs.$family_name$.{family-asked};
    ghost use Rattle.$crate$.specs.$family_name$.{family-slice-counted};
    ghost use Rattle.$crate$.specs.$family_name$.{family-slice-sort};
    ghost use Rattle.$crate$.specs.$family_name$.{family-slice-values};

    ghost Sort = { Family-Sorts };

    ghost Leaf = { Family-Leaves };

    ghost sort = { family-slice-sort };

    ghost views = { family-slice-values };

    ghost family = { family-all };

    ghost asked = { family-asked };

    ghost counted = { family-slice-counted };

    fn message_count(self) -> usize {
        self.count()
    }

    fn row_count(self) -> usize {
        self.rows()
    }

    fn row_messages(self, index: usize, row: usize) -> FamilySlice<'a> {
        self.row(index, row)
    }

    fn row_requirement(self, row: usize) -> RowRequirement {
        match self {
$asked_rows$        }
    }

    fn run_missing(
        self,
        index: usize,
        alloc: Global,
        run: usize,
    ) -> Result<Option<FieldPath>, AllocError> {
        match self {
$asked_runs$        }
    }
}
";

const ASKED_USES: &str = "\
std::alloc AllocError
wire_required FieldPath
wire_required RequiredMember
wire_required RequiredSlice
wire_required RowRequirement
";

const ASKED_OF_MEMBER: [Template; 2] = [
    (
        "asked_rows",
        "            FamilySlice::$name$(_) => $name$::row_requirement(row),\n",
    ),
    (
        "asked_runs",
        "            FamilySlice::$name$(own) => own[index].run_missing(alloc, run),\n",
    ),
];

/// The module of the enums of these types, whose words the pages have.
pub fn family_code(base: &Words, members: &[Words]) -> Result<String, GenerateError> {
    let mut page = Words::like(base);
    page.set("uses", FAMILY_USES);
    for member in members {
        page.copy(member, &["name", "module"]);
        let is_first = page.get("listed").is_empty();
        page.set("and", if is_first { "" } else { ", " });
        page.append_all(&OF_MEMBER);
        page.append_all(&ASKED_OF_MEMBER);
    }
    let is_requiring = !page.get("requiring").is_empty();
    page.append("uses", if is_requiring { ASKED_USES } else { "" });
    code_imports(&mut page);
    set_heading(&mut page, "//!", WHAT);
    page.fill("text", FAMILY);
    page.append("text", if is_requiring { ASKED } else { "" });
    page.finish("text")
}

//! The names that a file brings in: lines of a module and a name each.
use wire_schema::Words;

/// Of the lines of the word `uses`, the word `imports`: lines `use MODULE.{a, b}`, of at most a
/// hundred columns where a name leaves room.
pub fn definition_imports(page: &mut Words) {
    let uses = page.take("uses");
    page.fill_all(&[("use", "use "), ("shut", "}\n")]);
    put_imports(page, &uses);
    page.fill("imports", "$grouped$");
}

/// Of the lines of the word `ghosts`, the word `ghost_imports`, as clauses bring names in, behind
/// such a margin.
pub fn ghost_imports(page: &mut Words, margin: &str) {
    let ghosts = page.take("ghosts");
    page.set("use", margin);
    page.append("use", "ghost use ");
    page.fill("shut", "};\n");
    put_imports(page, &ghosts);
    page.fill("ghost_imports", "$grouped$");
}

// The word `grouped` of such lines.
fn put_imports(page: &mut Words, uses: &str) {
    page.fill_all(&[("grouped", ""), ("last", ""), ("line", "")]);
    for line in page.sorted(uses) {
        let (module, name) = line.split_once(' ').unwrap_or((line, ""));
        page.set("of", module);
        page.set("import", name);
        page.fill("more", "$line$, $import$");
        page.fill("ended", "$more$$shut$");
        let is_same = page.get("last") == module;
        // (its line's end counted; a sign may take three bytes)
        if is_same && page.get("ended").len() <= 101 {
            page.fill("line", "$more$");
        } else {
            end_import(page);
            page.fill("line", "$use$$of$.{$import$");
        }
        page.set("last", module);
    }
    end_import(page);
}

fn end_import(page: &mut Words) {
    if !page.get("line").is_empty() {
        page.append("grouped", "$line$$shut$");
    }
}

/// Of the lines of the word `uses`, the word `imports`, as code brings names in, in the order of
/// the formatter: the crate's own modules first.
pub fn code_imports(page: &mut Words) {
    let uses = page.take("uses");
    let lines = page.ordered(&uses);
    page.fill("imports", "");
    for is_own in [true, false] {
        page.fill("last", "");
        for line in &lines {
            let (module, _) = line.split_once(' ').unwrap_or((line, ""));
            let is_new = page.get("last") != module;
            if is_new && module.starts_with("crate::") == is_own {
                put_module(page, module, &lines);
            }
            page.set("last", module);
        }
    }
}

fn put_module(page: &mut Words, module: &str, lines: &[&str]) {
    page.set("of", module);
    page.set("names", "");
    let mut count: usize = 0;
    for line in lines {
        let (of, name) = line.split_once(' ').unwrap_or((line, ""));
        if of == module {
            page.set("import", name);
            page.append("names", if count == 0 { "$import$" } else { ", $import$" });
            count = count.saturating_add(1);
        }
    }
    page.fill("line", "use $of$::{$names$};");
    if count == 1 {
        page.append("imports", "use $of$::$names$;\n");
    } else if page.get("line").len() <= 98 {
        page.append("imports", "$line$\n");
    } else {
        put_filled(page);
    }
}

// In lines of at most a hundred columns, with what the formatter leaves free behind each.
fn put_filled(page: &mut Words) {
    let names = page.take("names");
    page.append("imports", "use $of$::{\n");
    page.fill_all(&[("line", "   "), ("import", ""), ("filled", "")]);
    for name in names.split(", ") {
        if !page.get("import").is_empty() {
            put_name(page, 99);
        }
        page.set("import", name);
    }
    let is_one = page.get("filled").is_empty();
    put_name(page, if is_one { 100 } else { 99 });
    page.append("imports", "$line$\n};\n");
}

// Puts a name into the line where it has room, and else into a new one.
fn put_name(page: &mut Words, width: usize) {
    let room = page
        .get("line")
        .len()
        .saturating_add(page.get("import").len());
    if room.saturating_add(2) > width && page.get("line") != "   " {
        page.append("imports", "$line$\n");
        page.fill_all(&[("line", "   "), ("filled", "filled")]);
    }
    page.append("line", " $import$,");
}

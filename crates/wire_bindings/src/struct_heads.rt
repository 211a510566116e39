//! The heads of calls, as the formatter lays them out.
use wire_definitions::WIDTH;
use wire_schema::Words;

/// The word of a head, what is before its parameters, these with a semicolon between them, and what
/// it answers.
pub type Head = [&'static str; 4];

/// Makes each head the word of its name: on one line where it has room, and else a line a parameter.
pub fn put_heads(page: &mut Words, heads: &'static [Head]) {
    for [name, call, parameters, answer] in heads {
        page.fill("head_call", call);
        page.fill("head_parameters", parameters);
        page.set("head_answer", answer);
        page.fill_all(&[("head_line", ""), ("head_lines", "")]);
        let parameters = page.take("head_parameters");
        for parameter in parameters.split("; ") {
            page.set("head_parameter", parameter);
            let is_first = page.get("head_line").is_empty();
            page.append("head_line", if is_first { "" } else { ", " });
            page.append("head_line", "$head_parameter$");
            page.append("head_lines", "    $head_parameter$,\n");
        }
        page.fill("head", "$head_call$($head_line$) -> $head_answer$");
        let is_short = page.get("head").chars().count() <= WIDTH;
        page.fill(
            name,
            if is_short {
                "$head$"
            } else {
                "$head_call$(\n$head_lines$) -> $head_answer$"
            },
        );
    }
}

//! Services: a type each, with a constant for each method, and a type for each method.
use wire_definitions::{WIDTH, put_comment, set_heading};
use wire_descriptor::MethodDescriptorProto;
use wire_schema::{
    GenerateError, Schema, ServiceType, Template, TypeNames, Words, apart, constant_name,
    variant_name, word_name,
};

// The longest name of which a list has several a line.
const SHORT: usize = 10;

// (a service may be called as the types that are named here)
const SERVICE: &str = "pub struct $name$;

impl $name$ {
    /// The full name.
    pub const NAME: &'static str = \"$full$\";

$constants$    /// All methods, in the order of the schema.
    pub const METHODS: [wire_fields::Method; $count$] = [$listed$];
}
$types$";

const CONSTANT: &str = "    pub const $constant$: wire_fields::Method = wire_fields::Method {
        path: \"/$full$/$proto$\",
        request: \"$request$\",
        response: \"$response$\",
        is_client_streaming: $client$,
        is_server_streaming: $server$,
    };

";

const TYPE: &str = "
/// The method `$proto$` of `$name$`.
pub struct $type$;

impl wire_fields::ServiceMethod for $type$ {
    type Request = $request_type$;

    type Response = $response_type$;

    const METHOD: wire_fields::Method = $name$::$constant$;
}
";

const OF_METHOD: [Template; 3] = [
    ("constants", CONSTANT),
    ("types", TYPE),
    ("listed", "$name$::$constant$\n"),
];

/// The module of the services of the files, or nothing where they have none.
pub fn services_of(base: &Words, schema: &Schema) -> Result<String, GenerateError> {
    let mut page = Words::like(base);
    let mut names = TypeNames::new(page.alloc());
    for service in &schema.services {
        put_service(&mut page, schema, service, &mut names)?;
    }
    if page.get("of_services").is_empty() {
        return page.finish("of_services");
    }
    set_heading(&mut page, "//!", "The services of `$crate$`.");
    page.fill("text", "$heading$$of_services$");
    page.finish("text")
}

fn put_service(
    page: &mut Words,
    schema: &Schema,
    service: &ServiceType,
    names: &mut TypeNames,
) -> Result<(), GenerateError> {
    page.copy(&service.words, &["name", "place"]);
    page.set("full", service.words.get("full").trim_start_matches('.'));
    page.fill_all(&[("constants", ""), ("types", ""), ("listed", "")]);
    let name = names.given("", page.get("name"))?;
    page.set("name", &name);
    let mut constants = Vec::new(page.alloc());
    for name in ["NAME", "METHODS"] {
        constants.push(String::from_str(page.alloc(), name)?)?;
    }
    for (index, method) in service.descriptor.method.iter().enumerate() {
        page.index("index", index);
        page.set("proto", &method.name);
        name_method(page, names, &mut constants)?;
        put_method(page, schema, method)?;
    }
    page.index("count", service.descriptor.method.len());
    lay_out_list(page);
    page.append("of_services", "\n");
    match schema.comment(service.words.get("place")) {
        "" => page.append("of_services", "/// The service `$full$`.\n"),
        comment => put_comment(page, "of_services", "", comment),
    }
    page.append("of_services", SERVICE);
    Ok(())
}

fn put_method(
    page: &mut Words,
    schema: &Schema,
    method: &MethodDescriptorProto,
) -> Result<(), GenerateError> {
    page.set("request", method.input_type.trim_start_matches('.'));
    page.set("response", method.output_type.trim_start_matches('.'));
    set_type(page, schema, "request_type", &method.input_type)?;
    set_type(page, schema, "response_type", &method.output_type)?;
    page.set("client", flag(method.client_streaming));
    page.set("server", flag(method.server_streaming));
    page.fill("at", "$place$.2.$index$");
    match schema.comment(page.get("at")) {
        "" => page.append("constants", "    /// The method `$proto$`.\n"),
        comment => put_comment(page, "constants", "    ", comment),
    }
    page.append_all(&OF_METHOD);
    Ok(())
}

// What the constant of a method is called, and its type. One that is called as another before it,
// or as a constant of each service, has its place behind it.
fn name_method(
    page: &mut Words,
    names: &mut TypeNames,
    constants: &mut Vec<String>,
) -> Result<(), GenerateError> {
    let alloc = page.alloc();
    let word = word_name(alloc, page.get("proto"))?;
    let constant = constant_name(alloc, &word)?;
    page.set("constant", &constant);
    let name = variant_name(alloc, page.get("proto"))?;
    page.set("type", &name);
    page.fill("type", "$name$$type$");
    if constants.contains(&constant) {
        page.append_all(&[("constant", "_$index$"), ("type", "$index$")]);
    }
    let constant = apart(alloc, page.take("constant"), constants)?;
    page.set("constant", &constant);
    constants.push(constant)?;
    let name = names.given("", page.get("type"))?;
    page.set("type", &name);
    Ok(())
}

// The methods of a service as the formatter lays out a list: in a line, of short names as many a
// line as it has room for, and else one a line.
fn lay_out_list(page: &mut Words) {
    let listed = page.take("listed");
    let names = listed.trim_end();
    if names.is_empty() {
        return;
    }
    let are_short = names.split('\n').all(|it| it.chars().count() <= SHORT);
    page.fill_all(&[("in_line", ""), ("rows", ""), ("row", "")]);
    for name in names.split('\n') {
        page.set("item", name);
        let is_first = page.get("in_line").is_empty();
        page.append("in_line", if is_first { "$item$" } else { ", $item$" });
        page.fill("longer", "$row$ $item$,");
        if are_short && !is_first && page.get("longer").chars().count() <= WIDTH {
            page.fill("row", "$longer$");
        } else {
            page.append("rows", if is_first { "" } else { "\n$row$" });
            page.fill("row", "        $item$,");
        }
    }
    page.fill(
        "line",
        "    pub const METHODS: [wire_fields::Method; $count$] = [$in_line$];",
    );
    let fits = page.get("line").chars().count() <= WIDTH;
    page.fill(
        "listed",
        if fits {
            "$in_line$"
        } else {
            "$rows$\n$row$\n    "
        },
    );
}

fn flag(is_set: bool) -> &'static str {
    if is_set { "true" } else { "false" }
}

const FOREIGN: &str = "\
    $full$.$proto$: $of_full$ is of a file of no crate that is named, as import=PACKAGE=CRATE does";

// The type of a message of this full name, by its path.
fn set_type(
    page: &mut Words,
    schema: &Schema,
    name: &'static str,
    full: &str,
) -> Result<(), GenerateError> {
    page.set("home", "");
    if let Some(message) = schema.message(full) {
        page.copy(&message.words, &["home"]);
        page.set("of_name", message.words.get("name"));
        page.set("of_module", message.words.get("module"));
    }
    if page.get("home").is_empty() {
        page.set("of_full", full);
        return Err(page.refused(FOREIGN));
    }
    let is_own = page.get("home") == page.get("crate");
    page.fill(
        name,
        if is_own {
            "crate::$of_module$::$of_name$"
        } else {
            "$home$::$of_name$"
        },
    );
    Ok(())
}

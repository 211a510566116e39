//! What message types that hold one another are called together.
use wire_schema::{GenerateError, Schema, Words};

/// What these types are called together, and their module and that of their views, which no type is:
/// with a number behind it where one is.
pub fn name_family(page: &mut Words, schema: &Schema) -> Result<(), GenerateError> {
    page.fill("natural", "$first_name$Family");
    let number = number_beside(page, schema)?;
    page.set("family_number", &number);
    page.fill("natural", "$first_name$Family$family_number$View");
    let view_number = number_beside(page, schema)?;
    page.set("view_number", &view_number);
    page.fill_all(&[
        ("family_name", "$first_name$Family$family_number$"),
        ("family_module", "$first_module$_family$family_number$"),
        ("family_view_module", "$family_module$_view$view_number$"),
    ]);
    Ok(())
}

// What stands behind the word `natural` in a name that no type has: nothing, or a number.
fn number_beside(page: &Words, schema: &Schema) -> Result<String, GenerateError> {
    let natural = page.get("natural");
    let name = schema.names.beside(page.get("whole"), natural)?;
    let number = name.strip_prefix(natural).unwrap_or("");
    Ok(String::from_str(page.alloc(), number)?)
}

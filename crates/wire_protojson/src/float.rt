//! Floats, from what stands for them in JSON.
ghost use Rattle.std.specs.Prelude.{◌≡◌, IfSome, IfNone};
ghost use Rattle.std.specs.Float.{Float, binary32, binary64};
ghost use Rattle.wire_protojson.specs.Numbers.{MeansByWord, MeansFloat};
ghost use Rattle.wire_protojson.specs.Tokens.{token_tree, word_value};

use crate::number::number_of;
use crate::token::Token;

/// What a float is that is no finite number.
#[derive(Clone, Copy)]
pub(crate) enum Word {
    NotANumber,
    Infinity,
    MinusInfinity,
}

fn word_of(token: &Token<'_>) -> Option<Word>
    ensures some { IfSome result (λ word. MeansByWord (token_tree token.now) (word_value word)) }
    ensures none { IfNone result ((x : Float) → MeansByWord (token_tree token.now) x → ⊥) }
{
    match token {
        Token::Null => None,
        Token::Bool(_) => None,
        Token::Number(_) => None,
        Token::String(value) => match value.as_str() {
            "NaN" => Some(Word::NotANumber),
            "Infinity" => Some(Word::Infinity),
            "-Infinity" => Some(Word::MinusInfinity),
            _ => None,
        },
    }
}

pub(crate) fn double_of(token: &Token<'_>) -> Option<f64>
    ensures some { IfSome result (MeansFloat binary64 (token_tree token.now)) }
    ensures none { IfNone result ((x : Float) → MeansFloat binary64 (token_tree token.now) x → ⊥) }
{
    match word_of(token) {
        Some(Word::NotANumber) => Some(f64::NAN),
        Some(Word::Infinity) => Some(f64::INFINITY),
        Some(Word::MinusInfinity) => Some(f64::NEG_INFINITY),
        None => match number_of(token) {
            Some(text) => match fast_float::parse::<f64, _>(text) {
                Ok(value) => if value.is_finite() { Some(value) } else { None },
                Err(_) => None,
            },
            None => None,
        },
    }
}

pub(crate) fn float_of(token: &Token<'_>) -> Option<f32>
    ensures some { IfSome result (MeansFloat binary32 (token_tree token.now)) }
    ensures none { IfNone result ((x : Float) → MeansFloat binary32 (token_tree token.now) x → ⊥) }
{
    match word_of(token) {
        Some(Word::NotANumber) => Some(f32::NAN),
        Some(Word::Infinity) => Some(f32::INFINITY),
        Some(Word::MinusInfinity) => Some(f32::NEG_INFINITY),
        None => match number_of(token) {
            Some(text) => match fast_float::parse::<f32, _>(text) {
                Ok(value) => if value.is_finite() { Some(value) } else { None },
                Err(_) => None,
            },
            None => None,
        },
    }
}

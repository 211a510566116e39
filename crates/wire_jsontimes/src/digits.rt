//! Digits at a place of a text.
ghost use Rattle.std.specs.Prelude.{◌≡◌, ◌+◌, ◌*◌, ◌^◌, ◌<◌, [], ◌∷◌, Some, None, drop, length, IfSome, MatchOption};
ghost use Rattle.std.specs.Char.{digit_value};
ghost use Rattle.std.specs.Option.{SomeIff};
ghost use Rattle.wire_jsontimes.specs.Digits as spec;

/// A number, and the place behind it.
#[derive(Clone, Copy)]
pub(crate) struct Front {
    pub(crate) value: u64,
    pub(crate) after: usize,
}

/// The byte at a place, if the text goes so far.
pub(crate) fn byte_at(text: &[u8], at: usize) -> Option<u8>
    ensures { MatchOption result (drop at text.now ≡ [])
        (λ byte. (drop at text.now ≡ byte ∷ drop (at + 1) text.now) × (at < length text.now)) }
{
    text.get(at).copied()
}

pub(crate) fn digit_of(byte: u8) -> Option<u32>
    ensures { SomeIff result (digit_value byte < 10) (digit_value byte) }
{
    char::from(byte).to_digit(10)
}

// A digit more, where one stands.
fn digit_more(text: &[u8], front: Front) -> Front
    requires { front.value < 10 ^ 12 }
    ensures front { (result.value, drop result.after text.now)
        ≡ spec.digit_more (front.value, drop front.after text.now) }
    ensures value { result.value < front.value * 10 + 10 }
{
    match byte_at(text, front.after) {
        Some(byte) => match digit_of(byte) {
            Some(digit) => Front {
                value: front.value * 10 + digit as u64,
                after: front.after + 1,
            },
            None => front,
        },
        None => front,
    }
}

fn three_digits_more(text: &[u8], front: Front) -> Front
    requires { front.value < 10 ^ 9 }
    ensures front { (result.value, drop result.after text.now)
        ≡ spec.times 3 spec.digit_more (front.value, drop front.after text.now) }
    ensures value { result.value < front.value * 1000 + 1000 }
{
    let first = digit_more(text, front);
    let second = digit_more(text, first);
    digit_more(text, second)
}

fn twelve_digits(text: &[u8], at: usize) -> Front
    ensures front { (result.value, drop result.after text.now)
        ≡ spec.times 12 spec.digit_more (0, drop at text.now) }
    ensures value { result.value < 10 ^ 12 }
{
    let none = Front {
        value: 0,
        after: at,
    };
    let first = three_digits_more(text, none);
    let second = three_digits_more(text, first);
    let third = three_digits_more(text, second);
    three_digits_more(text, third)
}

/// A zero alone, or at most twelve digits of which the first is none.
pub(crate) fn whole_at(text: &[u8], at: usize) -> Option<Front>
    ensures whole { MatchOption result (spec.whole_at (drop at text.now) ≡ None)
        (λ front. spec.whole_at (drop at text.now)
        ≡ Some (front.value, drop front.after text.now)) }
    ensures value { IfSome result (λ front. front.value < 10 ^ 12) }
{
    match byte_at(text, at) {
        None => None,
        Some(b'0') => Some(Front {
            value: 0,
            after: at + 1,
        }),
        Some(byte) => match digit_of(byte) {
            Some(_) => Some(twelve_digits(text, at)),
            None => None,
        },
    }
}

// A place of a fraction more.
fn place_more(text: &[u8], front: Front) -> Front
    requires { front.value < 10 ^ 9 }
    ensures front { (result.value, drop result.after text.now)
        ≡ spec.place_more (front.value, drop front.after text.now) }
    ensures value { result.value < front.value * 10 + 10 }
{
    match byte_at(text, front.after) {
        Some(byte) => match digit_of(byte) {
            Some(digit) => Front {
                value: front.value * 10 + digit as u64,
                after: front.after + 1,
            },
            None => Front {
                value: front.value * 10,
                after: front.after,
            },
        },
        None => Front {
            value: front.value * 10,
            after: front.after,
        },
    }
}

fn three_places_more(text: &[u8], front: Front) -> Front
    requires { front.value < 10 ^ 6 }
    ensures front { (result.value, drop result.after text.now)
        ≡ spec.times 3 spec.place_more (front.value, drop front.after text.now) }
    ensures value { result.value < front.value * 1000 + 1000 }
{
    let first = place_more(text, front);
    let second = place_more(text, first);
    place_more(text, second)
}

fn nine_places(text: &[u8], at: usize) -> Front
    ensures front { (result.value, drop result.after text.now)
        ≡ spec.times 9 spec.place_more (0, drop at text.now) }
    ensures value { result.value < 10 ^ 9 }
{
    let none = Front {
        value: 0,
        after: at,
    };
    let first = three_places_more(text, none);
    let second = three_places_more(text, first);
    three_places_more(text, second)
}

fn nanos_at(text: &[u8], at: usize) -> Option<Front>
    ensures nanos { MatchOption result (spec.nanos_at (drop at text.now) ≡ None)
        (λ front. spec.nanos_at (drop at text.now)
        ≡ Some (front.value, drop front.after text.now)) }
    ensures value { IfSome result (λ front. front.value < 10 ^ 9) }
{
    match byte_at(text, at) {
        None => None,
        Some(byte) => match digit_of(byte) {
            Some(_) => Some(nine_places(text, at)),
            None => None,
        },
    }
}

/// The nanoseconds behind a point, where one stands.
pub(crate) fn fraction_at(text: &[u8], at: usize) -> Option<Front>
    ensures fraction { MatchOption result (spec.fraction_at (drop at text.now) ≡ None)
        (λ front. spec.fraction_at (drop at text.now)
        ≡ Some (front.value, drop front.after text.now)) }
    ensures value { IfSome result (λ front. front.value < 10 ^ 9) }
{
    match byte_at(text, at) {
        Some(b'.') => nanos_at(text, at + 1),
        _ => Some(Front {
            value: 0,
            after: at,
        }),
    }
}

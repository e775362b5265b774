// What fields of a body hold, as types: a number, a text, a value, and one of these after another.
ghost use Rattle.std.specs.Prelude.{◌≡◌, List, [], ◌∷◌, ◌++◌, MatchResult};
ghost use Rattle.value.specs.Values.{meaning};
ghost use Rattle.body.specs.Bodies.{Filled, Refuses};
ghost use Rattle.basics.specs.Bits.{bit};
ghost use Rattle.body.specs.Fields.{Field, Item, number, text, value, whole, letters, universal, when, items_if};
ghost use Rattle.body.specs.Steps.{Took, Failed};
ghost use Rattle.body.specs.Tails.{nothing};

use crate::cursor::Body;
use crate::fault::MessageRefusal;
use text::Text;
use value::universal::Value;

// What some fields hold.
pub trait Held<'a>: Copy {
    // the fields
    ghost fields: { List Field };

    // what each of them holds
    ghost items: { Self → List Item };

    // Takes it from the front of a body, and answers what is left.
    fn take(body: Body<'a>) -> Result<(Self, Body<'a>), MessageRefusal>
        ensures { MatchResult result (λ p. Took fields (items p.0) body.entry p.1) (λ e. Failed fields body.entry e) };
}

// Numbers have an impl each: one for every `Number` would overlap with those below.
impl<'a> Held<'a> for u8 {
    ghost fields = { number 1 ∷ [] };

    ghost items = { λ n. whole 1 n ∷ [] };

    fn take(body: Body<'a>) -> Result<(u8, Body<'a>), MessageRefusal> {
        body.take_number()
    }
}

impl<'a> Held<'a> for u16 {
    ghost fields = { number 2 ∷ [] };

    ghost items = { λ n. whole 2 n ∷ [] };

    fn take(body: Body<'a>) -> Result<(u16, Body<'a>), MessageRefusal> {
        body.take_number()
    }
}

impl<'a> Held<'a> for u32 {
    ghost fields = { number 4 ∷ [] };

    ghost items = { λ n. whole 4 n ∷ [] };

    fn take(body: Body<'a>) -> Result<(u32, Body<'a>), MessageRefusal> {
        body.take_number()
    }
}

impl<'a> Held<'a> for Text<'a> {
    ghost fields = { text ∷ [] };

    ghost items = { λ t. letters t.bytes.now ∷ [] };

    fn take(body: Body<'a>) -> Result<(Text<'a>, Body<'a>), MessageRefusal> {
        body.take_text()
    }
}

impl<'a> Held<'a> for Value<'a> {
    ghost fields = { value ∷ [] };

    ghost items = { λ v. universal (meaning v) ∷ [] };

    fn take(body: Body<'a>) -> Result<(Value<'a>, Body<'a>), MessageRefusal> {
        body.take_value()
    }
}

// One after the other. More of them are pairs in pairs, so that one impl serves all lengths.
impl<'a, A: Held<'a>, B: Held<'a>> Held<'a> for (A, B) {
    ghost fields = { A.Held.fields ++ B.Held.fields };

    ghost items = { λ p. A.Held.items p.0 ++ B.Held.items p.1 };

    fn take(body: Body<'a>) -> Result<((A, B), Body<'a>), MessageRefusal> {
        let (first, body) = A::take(body)?;
        let (second, body) = B::take(body)?;
        Ok(((first, second), body))
    }
}

// Takes it where it is there.
pub fn take_if<'a, H: Held<'a>>(
    there: bool,
    body: Body<'a>,
) -> Result<(Option<H>, Body<'a>), MessageRefusal>
    ensures { MatchResult result (λ p. Took (when (bit there) H.Held.fields) (items_if H.Held.items p.0) body.entry p.1) (λ e. Failed (when (bit there) H.Held.fields) body.entry e) }
{
    if !there {
        return Ok((None, body));
    }
    let (held, body) = H::take(body)?;
    Ok((Some(held), body))
}

// Reads a body that holds this and nothing else.
pub fn read_whole<'a, H: Held<'a>>(body: Body<'a>) -> Result<H, MessageRefusal>
    ensures { MatchResult result (λ h. Filled H.Held.fields nothing (H.Held.items h) [] body.entry.rest.now) (λ e. Refuses H.Held.fields nothing body.entry e) }
{
    let (held, rest) = H::take(body)?;
    rest.finish()?;
    Ok(held)
}

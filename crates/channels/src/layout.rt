// The head of a list.
ghost use Rattle.std.specs.Prelude.{◌≡◌, ◌<◌, MatchResult};
ghost use Rattle.body.specs.Fields.{listing, whole};
ghost use Rattle.body.specs.Steps.{Takes, Denies};
ghost use Rattle.channels.specs.Layouts.{layout_word};

use basics::bits::{bits_of, is_set};
use body::cursor::Body;
use body::fault::MessageRefusal;

// How many entries a list has, and what each of them holds beside its id.
#[derive(Clone, Copy, PartialEq, Eq, Debug)]
pub struct Layout {
    // a sub-device, a function and a group
    pub detailed: bool,
    // no name
    pub unnamed: bool,
    // a value
    pub valued: bool,
    pub count: u16,
}

pub(crate) fn take_layout(
    valued: bool,
    body: Body<'_>,
) -> Result<(Layout, Body<'_>), MessageRefusal>
    ensures { MatchResult result (λ p. Takes (listing valued) (whole 2 (layout_word p.0)) body.entry p.1 × (p.0.valued ≡ valued) × (p.0.count < 4096)) (λ e. Denies (listing valued) body.entry e) }
{
    let (word, body) = body.take_word::<u16>(12, 2)?;
    let layout = Layout {
        detailed: is_set(word, 15),
        unnamed: is_set(word, 14),
        valued,
        count: bits_of(word, 0, 12),
    };
    Ok((layout, body))
}

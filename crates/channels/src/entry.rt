// The entries of a list.
ghost use Rattle.std.specs.Prelude.{◌≡◌, [], ◌∷◌, MatchResult};
ghost use Rattle.basics.specs.Bits.{bit};
ghost use Rattle.body.specs.Fields.{number, text, unless, items_if};
ghost use Rattle.body.specs.Steps.{Took, Failed};
ghost use Rattle.channels.specs.Entries.{name_items, detail_items, entry_items};
ghost use Rattle.channels.specs.Layouts.{entry_of};

use crate::layout::Layout;
use body::cursor::Body;
use body::fault::MessageRefusal;
use body::held::{Held, take_if};
use text::Text;
use value::universal::Value;

// Where a channel belongs.
#[derive(Clone, Copy, PartialEq, Eq, Debug)]
pub struct Detail {
    pub sub_device: u16,
    pub function: u8,
    pub group: u8,
}

// A channel of a list. What the list's layout leaves out is `None`.
#[derive(Clone, Copy)]
pub struct Entry<'a> {
    pub id: u32,
    pub name: Option<Text<'a>>,
    pub detail: Option<Detail>,
    pub value: Option<Value<'a>>,
}

// An impl of its own, as the structs of `device` have, since each names its own fields.
impl<'a> Held<'a> for Detail {
    ghost fields = { number 2 ∷ number 1 ∷ number 1 ∷ [] };

    ghost items = { detail_items };

    fn take(body: Body<'a>) -> Result<(Detail, Body<'a>), MessageRefusal> {
        let ((sub_device, (function, group)), body) = Held::take(body)?;
        let detail = Detail {
            sub_device,
            function,
            group,
        };
        Ok((detail, body))
    }
}

// The entry at the front, by the layout of its list.
pub(crate) fn take_entry(
    layout: Layout,
    body: Body<'_>,
) -> Result<(Entry<'_>, Body<'_>), MessageRefusal>
    ensures { MatchResult result (λ p. Took (entry_of layout) (entry_items p.0) body.entry p.1) (λ e. Failed (entry_of layout) body.entry e) }
{
    let (id, body) = Held::take(body)?;
    let (name, body) = take_if(!layout.unnamed, body)?;
    let (detail, body) = take_if(layout.detailed, body)?;
    let (value, body) = take_if(layout.valued, body)?;
    let entry = Entry {
        id,
        name,
        detail,
        value,
    };
    Ok((entry, body))
}

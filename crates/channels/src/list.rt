// Lists, and their entries one by one.
ghost use Rattle.std.specs.Prelude.{◌≡◌, List, [], ◌∷◌, MatchOption, MatchResult};
ghost use Rattle.body.specs.Bodies.{Refuses};
ghost use Rattle.body.specs.Fields.{Item, listing, times};
ghost use Rattle.body.specs.Steps.{Took, Failed};
ghost use Rattle.body.specs.Tails.{nothing};
ghost use Rattle.channels.specs.Layouts.{entry_of};
ghost use Rattle.channels.specs.Lists.{ListsBody, Begins, Empty};

use crate::entry::{Entry, take_entry};
use crate::layout::{Layout, take_layout};
use body::cursor::Body;
use body::fault::MessageRefusal;

// A list: its layout, and the bytes of its entries. The count stands beside them since the wire has it, and the bytes alone
// don't tell how many entries they are.
#[derive(Clone, Copy)]
pub struct Channels<'a> {
    pub layout: Layout,
    pub entries: &'a [u8],
}

// Passes over as many entries as the layout counts. A `for`, since `try_fold` would take each pair apart just the same.
fn pass_entries(layout: Layout, body: Body<'_>) -> Result<Body<'_>, MessageRefusal>
    ensures { MatchResult result (λ c. (es : List Item) × Took (times layout.count (entry_of layout)) es body.entry c) (λ e. Failed (times layout.count (entry_of layout)) body.entry e) }
{
    let mut rest = body;
    for _i in 0..layout.count {
        let (_, after) = take_entry(layout, rest)?;
        rest = after;
    }
    Ok(rest)
}

// Reads a body that is a list, with values or without.
pub fn read_channels(valued: bool, body: Body<'_>) -> Result<Channels<'_>, MessageRefusal>
    ensures { MatchResult result (λ c. ListsBody valued c body.entry.rest.now × (c.layout.valued ≡ valued)) (λ e. Refuses (listing valued ∷ []) nothing body.entry e) }
{
    take_channels(valued, body)
}

// What `read_channels` does. It stands apart so that an edit of the public call is refused in it, and not in a proof.
fn take_channels(valued: bool, body: Body<'_>) -> Result<Channels<'_>, MessageRefusal>
    ensures { MatchResult result (λ c. ListsBody valued c body.entry.rest.now × (c.layout.valued ≡ valued)) (λ e. Refuses (listing valued ∷ []) nothing body.entry e) }
{
    let (layout, entries) = take_layout(valued, body)?;
    let after = pass_entries(layout, entries)?;
    after.finish()?;
    Ok(Channels {
        layout,
        entries: entries.rest,
    })
}

impl<'a> Channels<'a> {
    // The first entry and the list of those after it, or nothing where there is none.
    pub fn first(self) -> Option<(Entry<'a>, Channels<'a>)>
        ensures { MatchOption result (Empty self.entry) (λ p. Begins self.entry p.0 p.1) }
    {
        self.split_first()
    }

    // What `first` does. It stands apart so that an edit of the public call is refused in it, and not in a proof.
    fn split_first(self) -> Option<(Entry<'a>, Channels<'a>)>
        ensures { MatchOption result (Empty self.entry) (λ p. Begins self.entry p.0 p.1) }
    {
        let count = self.layout.count.checked_sub(1)?;
        let (entry, after) = take_entry(self.layout, Body::new(self.entries, 0)).ok()?;
        let layout = Layout {
            count,
            ..self.layout
        };
        let others = Channels {
            layout,
            entries: after.rest,
        };
        Some((entry, others))
    }
}

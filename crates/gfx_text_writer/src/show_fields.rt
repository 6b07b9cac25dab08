// The text of fields: ` field=value` for each.
ghost use Rattle.std.specs.Prelude.{◌≡◌, ◌++◌, ◌∷◌, [], ℕ, List, length, take, OnOk, OnErr};
ghost use Rattle.gfx_model.specs.Fields.{Named};
ghost use Rattle.gfx_text_writer.specs.Shown.{tokens_text};

use crate::show_items::ShowItem;
use crate::show_values::{ShowMade, ShowValue};
use crate::shown::ShowId;
use std::alloc::AllocError;

/// A field of a call, or several in order.
pub(crate) trait ShowFields {
    /// The names of the fields.
    type Names;

    /// The fields in the table.
    ghost fields: { Self.Names → Self → List Named };

    /// Appends the fields, each behind a space, but for those that are written apart. When out of memory some of them may
    /// follow the old text.
    fn show<W: ShowId>(
        &self,
        names: &Self::Names,
        ids: &W,
        out: &mut Vec<u8>,
    ) -> Result<(), AllocError>
        ensures ok { OnOk result (out.new.items ≡ out.old.items ++ tokens_text (W.style ids.now) (fields names.now self.now)) }
        ensures err { OnErr result (take (length out.old.items) out.new.items ≡ out.old.items) };
}

/// Appends a field behind a space.
fn show_token<T: ShowItem, W: ShowId>(
    name: &str,
    item: &T,
    ids: &W,
    out: &mut Vec<u8>,
) -> Result<(), AllocError>
    ensures ok { OnOk result (out.new.items ≡ out.old.items ++ (32 ∷ (name.now ++ (61 ∷ T.text (W.style ids.now).ids.show item.now)))) }
    ensures err { OnErr result (take (length out.old.items) out.new.items ≡ out.old.items) }
{
    out.push(b' ')?;
    out.extend_from_slice(name.as_bytes())?;
    out.push(b'=')?;
    item.show(ids, out)
}

// A field that the call doesn't make.
impl<T: ShowValue> ShowFields for &T {
    type Names = &'static str;

    ghost fields = { λ name item. record { name = name.now; value = T.value item.now } ∷ [] };

    fn show<W: ShowId>(
        &self,
        names: &&'static str,
        ids: &W,
        out: &mut Vec<u8>,
    ) -> Result<(), AllocError> {
        show_token(*names, *self, ids, out)
    }
}

/// A field that the call makes.
#[derive(Drop)]
pub(crate) struct New<'f, T>(pub(crate) &'f T);

impl<T: ShowMade> ShowFields for New<'_, T> {
    type Names = &'static str;

    ghost fields = { λ name item. record { name = name.now; value = T.made item.0.now } ∷ [] };

    fn show<W: ShowId>(
        &self,
        names: &&'static str,
        ids: &W,
        out: &mut Vec<u8>,
    ) -> Result<(), AllocError> {
        if ids.apart() {
            return Ok(());
        }
        show_token(*names, self.0, ids, out)
    }
}

impl<A: ShowFields, B: ShowFields> ShowFields for (A, B) {
    type Names = (A::Names, B::Names);

    ghost fields = { λ names both. A.fields names.0 both.0 ++ B.fields names.1 both.1 };

    #[tactic(auto, unfolding(crate::specs::Shown::tokens_text))]
    fn show<W: ShowId>(
        &self,
        names: &(A::Names, B::Names),
        ids: &W,
        out: &mut Vec<u8>,
    ) -> Result<(), AllocError> {
        self.0.show(&names.0, ids, out)?;
        self.1.show(&names.1, ids, out)
    }
}

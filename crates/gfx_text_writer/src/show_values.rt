// Which value of the table of fields the value of a field is.
ghost use Rattle.std.specs.Prelude.{◌≡◌, ℕ, List, true, false, refl};
ghost use Rattle.gfx_model.specs.Fields.{Value, is_made};
ghost use Rattle.gfx_model.specs.Fields.Value.{names, makes, maybe, wide, short, raw, names_each, makes_each, shorts, records, submitted};
ghost use Rattle.gfx_model.specs.Fields.Records.{barriers, buffer_regions, image_regions, mixed_regions, presents};
ghost use Rattle.gfx_script_model.specs.FieldText.{value_text};

use crate::show_items::{Maybe, ShowItem, Wide};
use gfx_types::{
    Barriers, BufferRegions, Ids, ImageRegions, MixedRegions, Numbers, Presents, Submits,
};

/// The value of a field that a call doesn't make.
pub(crate) trait ShowValue: ShowItem {
    /// The value in the table of fields.
    ghost value: { Self → Value };

    /// The call doesn't make it.
    ghost is_plain: { (item : Self) → is_made (value item) ≡ false };

    /// The text is that of the value.
    ghost same_text: { (show : ℕ → List ℕ) (item : Self) → value_text show (value item) ≡ Self.text show item };
}

/// The value of a field that a call makes.
pub(crate) trait ShowMade: ShowItem {
    /// The value in the table of fields.
    ghost made: { Self → Value };

    /// The call makes it.
    ghost is_new: { (item : Self) → is_made (made item) ≡ true };

    /// The text is that of the value.
    ghost same_text: { (show : ℕ → List ℕ) (item : Self) → value_text show (made item) ≡ Self.text show item };
}

impl ShowValue for u64 {
    ghost value = { λ id. names id };

    ghost is_plain = { λ _. refl };

    ghost same_text = { λ _ _. refl };
}

impl ShowValue for Maybe {
    ghost value = { λ id. maybe id.0 };

    ghost is_plain = { λ _. refl };

    ghost same_text = { λ _ _. refl };
}

impl ShowValue for Wide {
    ghost value = { λ n. wide n.0 };

    ghost is_plain = { λ _. refl };

    ghost same_text = { λ _ _. refl };
}

impl ShowValue for u32 {
    ghost value = { λ n. short n };

    ghost is_plain = { λ _. refl };

    ghost same_text = { λ _ _. refl };
}

impl ShowValue for &[u8] {
    ghost value = { λ bytes. raw bytes.now };

    ghost is_plain = { λ _. refl };

    ghost same_text = { λ _ _. refl };
}

impl ShowValue for Ids {
    ghost value = { λ ids. names_each ids };

    ghost is_plain = { λ _. refl };

    ghost same_text = { λ _ _. refl };
}

impl ShowValue for Numbers {
    ghost value = { λ items. shorts items };

    ghost is_plain = { λ _. refl };

    ghost same_text = { λ _ _. refl };
}

impl ShowValue for Barriers {
    ghost value = { λ items. records (barriers items) };

    ghost is_plain = { λ _. refl };

    ghost same_text = { λ _ _. refl };
}

impl ShowValue for BufferRegions {
    ghost value = { λ items. records (buffer_regions items) };

    ghost is_plain = { λ _. refl };

    ghost same_text = { λ _ _. refl };
}

impl ShowValue for ImageRegions {
    ghost value = { λ items. records (image_regions items) };

    ghost is_plain = { λ _. refl };

    ghost same_text = { λ _ _. refl };
}

impl ShowValue for MixedRegions {
    ghost value = { λ items. records (mixed_regions items) };

    ghost is_plain = { λ _. refl };

    ghost same_text = { λ _ _. refl };
}

impl ShowValue for Presents {
    ghost value = { λ items. records (presents items) };

    ghost is_plain = { λ _. refl };

    ghost same_text = { λ _ _. refl };
}

impl ShowValue for Submits {
    ghost value = { λ items. submitted items };

    ghost is_plain = { λ _. refl };

    ghost same_text = { λ _ _. refl };
}

impl ShowMade for u64 {
    ghost made = { λ id. makes id };

    ghost is_new = { λ _. refl };

    ghost same_text = { λ _ _. refl };
}

impl ShowMade for Ids {
    ghost made = { λ ids. makes_each ids };

    ghost is_new = { λ _. refl };

    ghost same_text = { λ _ _. refl };
}

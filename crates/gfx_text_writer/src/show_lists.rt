// The text of the lists of a call.
ghost use Rattle.std.specs.Prelude.{◌≡◌, ◌++◌, ◌∷◌, ℕ, List, length, take, map, decimal, OnOk, OnErr};
ghost use Rattle.gfx_model.specs.Fields.Value.{records, submitted};
ghost use Rattle.gfx_model.specs.Fields.Records.{barriers, buffer_regions, image_regions, mixed_regions, presents};
ghost use Rattle.gfx_script_model.specs.FieldText.{list_text, value_text};

use crate::show_items::{ShowItem, show_list};
use crate::shown::ShowId;
use gfx_types::{Barriers, BufferRegions, ImageRegions, MixedRegions, Numbers, Presents, Submits};
use std::alloc::AllocError;

impl ShowItem for Numbers {
    ghost text = { λ _ items. list_text (map decimal items) };

    fn show<W: ShowId>(&self, ids: &W, out: &mut Vec<u8>) -> Result<(), AllocError> {
        show_list(self.items(), ids, out)
    }
}

impl ShowItem for Barriers {
    ghost text = { λ show items. value_text show (records (barriers items)) };

    #[tactic(auto, using(crate::proofs::Grown::map_both))]
    fn show<W: ShowId>(&self, ids: &W, out: &mut Vec<u8>) -> Result<(), AllocError> {
        show_list(self.items(), ids, out)
    }
}

impl ShowItem for BufferRegions {
    ghost text = { λ show items. value_text show (records (buffer_regions items)) };

    #[tactic(auto, using(crate::proofs::Grown::map_both))]
    fn show<W: ShowId>(&self, ids: &W, out: &mut Vec<u8>) -> Result<(), AllocError> {
        show_list(self.items(), ids, out)
    }
}

impl ShowItem for ImageRegions {
    ghost text = { λ show items. value_text show (records (image_regions items)) };

    #[tactic(auto, using(crate::proofs::Grown::map_both))]
    fn show<W: ShowId>(&self, ids: &W, out: &mut Vec<u8>) -> Result<(), AllocError> {
        show_list(self.items(), ids, out)
    }
}

impl ShowItem for MixedRegions {
    ghost text = { λ show items. value_text show (records (mixed_regions items)) };

    #[tactic(auto, using(crate::proofs::Grown::map_both))]
    fn show<W: ShowId>(&self, ids: &W, out: &mut Vec<u8>) -> Result<(), AllocError> {
        show_list(self.items(), ids, out)
    }
}

impl ShowItem for Presents {
    ghost text = { λ show items. value_text show (records (presents items)) };

    #[tactic(auto, using(crate::proofs::Grown::map_both))]
    fn show<W: ShowId>(&self, ids: &W, out: &mut Vec<u8>) -> Result<(), AllocError> {
        show_list(self.items(), ids, out)
    }
}

impl ShowItem for Submits {
    ghost text = { λ show items. value_text show (submitted items) };

    fn show<W: ShowId>(&self, ids: &W, out: &mut Vec<u8>) -> Result<(), AllocError> {
        show_list(self.items(), ids, out)
    }
}

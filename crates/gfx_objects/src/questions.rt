//! What is asked of one object.
ghost use Rattle.std.specs.Prelude.{◌≡◌, ◌+◌, ◌≤◌, is_some, IfSome, option_map};
ghost use Rattle.gfx_model.specs.Questions.{range_of};
ghost use Rattle.gfx_model.specs.Checks as words;
ghost use Rattle.gfx_model.specs.Views as view;
ghost use Rattle.gfx_model.specs.Limits.{max_live_bytes};
ghost use Rattle.gfx_objects.specs.Object.{bound_of, detail_of, window_of, binding_of};
ghost use Rattle.gfx_objects.specs.Objects.{answers};

use crate::kinds::number_of;
use crate::object::{Binding, Detail, Window};
use crate::objects::Objects;
use gfx_types::{Kind, MapRange, Place, Resource, image_size};

impl Objects {
    /// The bytes of a live memory, buffer or image, 0 for any other id.
    pub fn size(&self, id: u64) -> u64
        ensures { result ≡ view.size_of (answers self.now) id }
    {
        match self.get(id) {
            Some(object) => object.detail.size(),
            None => 0,
        }
    }

    /// The usage of a live buffer or image, 0 for any other id.
    pub fn usage(&self, id: u64) -> u32
        ensures { result ≡ view.usage_of (answers self.now) id }
    {
        match self.get(id) {
            Some(object) => object.detail.usage(),
            None => 0,
        }
    }

    /// The format of a live image or swapchain, 0 for any other id.
    pub fn format(&self, id: u64) -> u32
        ensures { result ≡ view.format_at (answers self.now) id }
    {
        match self.get(id) {
            Some(object) => object.detail.format(),
            None => 0,
        }
    }

    /// The width of a live image or swapchain, 0 for any other id.
    pub fn width(&self, id: u64) -> u32
        ensures { result ≡ view.width_of (answers self.now) id }
    {
        match self.get(id) {
            Some(object) => object.detail.width(),
            None => 0,
        }
    }

    /// The height of a live image or swapchain, 0 for any other id.
    pub fn height(&self, id: u64) -> u32
        ensures { result ≡ view.height_of (answers self.now) id }
    {
        match self.get(id) {
            Some(object) => object.detail.height(),
            None => 0,
        }
    }

    /// How many images a live swapchain has, 0 for any other id.
    pub fn images(&self, id: u64) -> u32
        ensures { result ≡ view.images_in (answers self.now) id }
    {
        match self.get(id) {
            Some(object) => object.detail.images(),
            None => 0,
        }
    }

    /// The usage of the images of a live swapchain, 0 for any other id.
    pub fn image_usage(&self, id: u64) -> u32
        ensures { result ≡ view.usage_in (answers self.now) id }
    {
        match self.get(id) {
            Some(object) => object.detail.image_usage(),
            None => 0,
        }
    }

    /// The flags of a live pool, 0 for any other id.
    pub fn flags(&self, id: u64) -> u32
        ensures { result ≡ view.ask view.detail_flags (answers self.now) id }
    {
        match self.get(id) {
            Some(object) => object.detail.flags(),
            None => 0,
        }
    }

    /// The mapped range of a memory.
    pub fn mapped(&self, id: u64) -> Option<MapRange>
        ensures { option_map range_of result ≡ (answers self.now).mapped id }
    {
        match self.get(id) {
            Some(object) => object.detail.mapped(),
            None => None,
        }
    }

    /// Whether a live resource was bound.
    pub fn is_bound(&self, id: u64) -> bool
        ensures { result ≡ is_some ((answers self.now).bound id) }
    {
        match self.get(id) {
            Some(object) => object.detail.is_bound(),
            None => false,
        }
    }

    /// How many bytes an InitImage of this image has to have, 0 for any other id.
    pub fn wanted(&self, id: u64) -> u64
        ensures { result ≡ words.wanted_by (answers self.now) id }
    {
        match self.get(id) {
            Some(object) => object.detail.wanted(),
            None => 0,
        }
    }

    /// The newest layout of a live image, 0 for any other id.
    pub fn layout(&self, id: u64) -> u32
        ensures { result ≡ (answers self.now).layout id }
    {
        match self.get(id) {
            Some(object) => object.detail.layout(),
            None => 0,
        }
    }

    /// What a command asks of a live object of this kind.
    pub fn resource(&self, kind: Kind, id: u64) -> Option<Resource>
        ensures live { is_some result ≡ view.is_live (answers self.now) kind id }
        ensures parent { IfSome result (λ r. r.parent ≡ view.parent_of (answers self.now) id) }
        ensures usage { IfSome result (λ r. r.usage ≡ view.usage_of (answers self.now) id) }
        ensures usable { IfSome result (λ r. r.is_usable ≡ view.is_usable (answers self.now) id) }
    {
        let object = self.get(id)?;
        if number_of(object.kind) != number_of(kind) {
            return None;
        }
        Some(Resource {
            parent: object.parent,
            usage: object.detail.usage(),
            is_usable: self.is_usable(id, &object.detail),
        })
    }

    // Whether the bytes of an object stand somewhere, by its parameters.
    fn is_usable(&self, id: u64, detail: &Detail) -> bool
        requires { (answers self.now).bound id ≡ bound_of detail.now }
        ensures { result ≡ is_some (view.detail_window (answers self.now) id (detail_of detail.now)) }
    {
        match detail {
            Detail::Image { index: Some(_), .. } => true,
            _ => match detail.memory() {
                Some(memory) => self.is_live(Kind::Memory, memory),
                None => false,
            },
        }
    }

    /// Where the bytes of a resource stand: none exactly where it isn't usable.
    pub fn window(&self, id: u64) -> Option<Window>
        ensures window { option_map window_of result ≡ view.window (answers self.now) id }
        ensures ends { IfSome result (λ w. w.offset + w.length ≤ max_live_bytes) }
    {
        match self.get(id)?.detail {
            Detail::Buffer { size, bound, .. } => self.bound_window(bound, size),
            Detail::Image {
                format,
                width,
                height,
                bound,
                index,
                ..
            } => {
                let length = image_size(format, width, height);
                match index {
                    Some(_) => Some(Window {
                        place: Place::Image(id),
                        offset: 0,
                        length,
                    }),
                    None => self.bound_window(bound, length),
                }
            }
            _ => None,
        }
    }

    // The window of a resource of so many bytes under its binding.
    fn bound_window(&self, bound: Option<Binding>, length: u64) -> Option<Window>
        ensures { option_map window_of result ≡ view.bound_window (answers self.now) length (option_map binding_of bound) }
    {
        let binding = bound?;
        if self.is_live(Kind::Memory, binding.memory) {
            Some(Window {
                place: Place::Memory(binding.memory),
                offset: binding.offset,
                length,
            })
        } else {
            None
        }
    }
}

//! Ids that a section lists together.
ghost use Rattle.std.specs.Prelude.{◌≡◌, ◌≤◌, ◌++◌, length, filter, IfOk, OnOk};
ghost use Rattle.gfx_model.specs.Views as view;
ghost use Rattle.gfx_objects.specs.Object.{detail_of};
ghost use Rattle.gfx_objects.specs.Objects.{answers};
ghost use Rattle.gfx_state.specs.Ids.{owned_in};
ghost use Rattle.gfx_model.specs.Limits.{max_live_objects};

use gfx_objects::{Detail, Objects};
use gfx_types::{Ids, Kind, WantMemory};
use std::alloc::{AllocError, Global};

/// The live ids of a kind that an object owns, rising.
pub(crate) fn owned_ids(
    alloc: Global,
    objects: &Objects,
    kind: Kind,
    owner: u64,
) -> Result<Vec<u64>, AllocError>
    ensures ids { IfOk result (λ ids. ids.items ≡ owned_in (answers objects.now) kind owner) }
    ensures few { IfOk result (λ ids. length ids.items ≤ max_live_objects) }
{
    // few objects are live, so few are owned
    let _live = objects.live();
    let mut ids = Vec::new(alloc);
    'ids: for id in objects.owned(owner) {
        if objects.is_live(kind, *id) {
            ids.push(*id)?;
        }
    }
    ids.sort_unstable();
    Ok(ids)
}

// Whether the live object of this id is the image of a swapchain at the index.
fn is_at(objects: &Objects, id: u64, index: u32) -> bool
    ensures { result ≡ view.is_one (answers objects.now) (λ o. view.has_index index o.detail) id }
{
    match objects.get(id) {
        Some(object) => has_index(&object.detail, index),
        None => false,
    }
}

// Whether these are the parameters of the image of a swapchain at the index.
fn has_index(detail: &Detail, index: u32) -> bool
    ensures { result ≡ view.has_index index (detail_of detail.now) }
{
    match detail {
        Detail::Image {
            index: Some(at),
            ..
        } => *at == index,
        _ => false,
    }
}

// Appends those of the ids that are images at the index.
fn push_at(
    images: &mut Vec<u64>,
    objects: &Objects,
    ids: &[u64],
    index: u32,
) -> Result<(), AllocError>
    ensures { OnOk result (images.new.items ≡ images.old.items ++ filter (view.is_one (answers objects.now) (λ o. view.has_index index o.detail)) ids.now) }
{
    'ids: for id in ids {
        if is_at(objects, *id, index) {
            images.push(*id)?;
        }
    }
    Ok(())
}

/// The fetched images of a swapchain that has so many images, by index.
pub fn fetched(
    alloc: Global,
    objects: &Objects,
    swapchain: u64,
    images: u32,
) -> Result<Vec<u64>, AllocError>
    requires { images ≡ view.images_in (answers objects.now) swapchain }
    ensures ids { IfOk result (λ ids. ids.items ≡ view.fetched (answers objects.now) swapchain) }
    ensures few { IfOk result (λ ids. length ids.items ≤ max_live_objects) }
{
    let owned = owned_ids(alloc, objects, Kind::Image, swapchain)?;
    let mut ids = Vec::new(alloc);
    'indices: for index in 0..images {
        push_at(&mut ids, objects, &owned, index)?;
    }
    Ok(ids)
}

/// A list of ids of its own.
pub(crate) fn ids_of(alloc: Global, ids: &[u64]) -> Result<Ids, WantMemory>
    ensures { IfOk result (λ all. all ≡ ids.now) }
{
    Ok(Ids::of(Vec::from_slice(alloc, ids)?))
}

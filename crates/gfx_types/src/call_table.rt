//! The fields of each call and metadata, in their order in a payload. What reads, writes, measures or takes fields is
//! made of this one table; the types of the fields are those of `Call` and `Meta`.

/// How many calls there are, numbered from 1.
pub const CALL_COUNT: u32 = 48;

/// How many metadata there are, numbered from 1; the first of them is a message, which is skipped.
pub const METADATA_COUNT: u32 = 5;

/// Hands the calls to another macro, in sections of rows: an id, a name, the name of the functions that take its
/// fields, and the fields with their marks. A field `names` an id, `makes` one, or `maybe` names one where it isn't 0;
/// it is a number of eight bytes (`wide`) or of four (`short`), bytes (`raw`), or a list of ids (`names_each`,
/// `makes_each`), of numbers (`shorts`), of `records` or of what is `submitted`. The row of call 48, QueuePresentKHR,
/// depends on the minor version and is where it is used.
#[macro_export]
macro_rules! calls {
    ($with:ident, $($subject:tt)*) => {
        $with! { $($subject)*;
            devices {
                1 CreateInstance create_instance(instance: makes, api: short);
                2 DestroyInstance destroy_instance(instance: names);
                3 CreateHeadlessSurfaceEXT create_surface(instance: names, surface: makes);
                4 DestroySurfaceKHR destroy_surface(instance: names, surface: names);
                5 CreateDevice create_device(instance: names, device: makes);
                6 DestroyDevice destroy_device(device: names);
                7 GetDeviceQueue get_device_queue(device: names, queue: makes);
            }
            memory {
                8 AllocateMemory allocate_memory(device: names, memory: makes, size: wide);
                9 FreeMemory free_memory(device: names, memory: names);
                10 MapMemory map_memory(device: names, memory: names, offset: wide, size: wide);
                11 UnmapMemory unmap_memory(device: names, memory: names);
                12 CreateBuffer create_buffer(device: names, buffer: makes, size: wide, usage: short);
                13 DestroyBuffer destroy_buffer(device: names, buffer: names);
                14 BindBufferMemory bind_buffer_memory(
                    device: names, buffer: names, memory: names, offset: wide
                );
                15 CreateImage create_image(
                    device: names, image: makes, format: short, width: short, height: short, usage: short
                );
                16 DestroyImage destroy_image(device: names, image: names);
                17 BindImageMemory bind_image_memory(
                    device: names, image: names, memory: names, offset: wide
                );
            }
            pools {
                18 CreateCommandPool create_command_pool(device: names, pool: makes, flags: short);
                19 DestroyCommandPool destroy_command_pool(device: names, pool: names);
                20 ResetCommandPool reset_command_pool(device: names, pool: names);
                21 AllocateCommandBuffers allocate_command_buffers(
                    device: names, pool: names, buffers: makes_each
                );
                22 FreeCommandBuffers free_command_buffers(device: names, pool: names, buffers: names_each);
                23 BeginCommandBuffer begin_command_buffer(cb: names, flags: short);
                24 EndCommandBuffer end_command_buffer(cb: names);
                25 ResetCommandBuffer reset_command_buffer(cb: names);
            }
            commands {
                26 CmdPipelineBarrier cmd_pipeline_barrier(cb: names, barriers: records);
                27 CmdFillBuffer cmd_fill_buffer(
                    cb: names, buffer: names, offset: wide, size: wide, word: short
                );
                28 CmdUpdateBuffer cmd_update_buffer(cb: names, buffer: names, offset: wide, bytes: raw);
                29 CmdCopyBuffer cmd_copy_buffer(cb: names, source: names, target: names, regions: records);
                30 CmdCopyImage cmd_copy_image(
                    cb: names, source: names, source_layout: short, target: names, target_layout: short,
                    regions: records
                );
                31 CmdCopyBufferToImage cmd_copy_buffer_to_image(
                    cb: names, source: names, target: names, layout: short, regions: records
                );
                32 CmdCopyImageToBuffer cmd_copy_image_to_buffer(
                    cb: names, source: names, layout: short, target: names, regions: records
                );
                33 CmdClearColorImage cmd_clear_color_image(
                    cb: names, image: names, layout: short, c0: short, c1: short, c2: short, c3: short
                );
            }
            signals {
                34 CreateFence create_fence(device: names, fence: makes, flags: short);
                35 DestroyFence destroy_fence(device: names, fence: names);
                36 ResetFences reset_fences(device: names, fences: names_each);
                37 WaitForFences wait_for_fences(
                    device: names, fences: names_each, wait_all: short, answer: short
                );
                38 GetFenceStatus get_fence_status(device: names, fence: names, answer: short);
                39 CreateSemaphore create_semaphore(device: names, semaphore: makes);
                40 DestroySemaphore destroy_semaphore(device: names, semaphore: names);
            }
            swapchains {
                41 QueueSubmit queue_submit(queue: names, submits: submitted, fence: maybe);
                42 QueueWaitIdle queue_wait_idle(queue: names);
                43 DeviceWaitIdle device_wait_idle(device: names);
                44 CreateSwapchainKHR create_swapchain(
                    device: names, swapchain: makes, surface: names, images: short, format: short,
                    width: short, height: short, usage: short
                );
                45 DestroySwapchainKHR destroy_swapchain(device: names, swapchain: names);
                46 GetSwapchainImagesKHR get_swapchain_images(
                    device: names, swapchain: names, images: makes_each
                );
                47 AcquireNextImageKHR acquire_next_image(
                    device: names, swapchain: names, semaphore: maybe, fence: maybe, index: short,
                    answer: short
                );
            }
        }
    };
}

/// Hands the metadata to another macro, in one section.
#[macro_export]
macro_rules! metas {
    ($with:ident, $($subject:tt)*) => {
        $with! { $($subject)*;
            metas {
                2 FillMemory fill_memory(memory: names, offset: wide, bytes: raw);
                3 InitImage init_image(image: names, layout: short, bytes: raw);
                4 SetSwapchainState set_swapchain_state(swapchain: names, acquired: shorts);
                5 SetSemaphoreState set_semaphore_state(semaphore: names, signalled: short);
            }
        }
    };
}

/// Fields one after the other, as pairs of a field and the fields behind it.
#[macro_export]
macro_rules! in_order {
    ($field:ident) => { $field };
    ($field:ident, $($behind:ident),+) => { ($field, $crate::in_order!($($behind),+)) };
}

/// A field by its mark, lent by a call or a metadata, as functions take it: a number, a slice of items, or bytes.
#[macro_export]
macro_rules! argument {
    (raw $field:ident) => { $field };
    (names_each $field:ident) => { $field.items() };
    (makes_each $field:ident) => { $field.items() };
    (shorts $field:ident) => { $field.items() };
    (records $field:ident) => { $field.items() };
    (submitted $field:ident) => { $field.items() };
    ($mark:ident $field:ident) => { *$field };
}

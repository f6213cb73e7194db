//! Handles: compiled schemas behind a pointer that a caller in C keeps.
ghost use Rattle.std.specs.Prelude.{◌≡◌, None, Option, Some, option_map};
ghost use Rattle.jskw_report.specs.Keyword.{Schema};
ghost use Rattle.jskw_report.specs.SchemaCode.{schema_code};
ghost use Rattle.std.specs.Coded.{coded_option};
ghost use Rattle.jskw_c.specs.Slot.{slot_owns};
ghost use Rattle.jskw_c.specs.contracts.compiled.CompiledSchema.{the_row};

use crate::compiled::CompiledSchema;
use std::alloc::Global;
use std::fmt;
use std::marker::{Brand, Model};
use std::ptr::null_mut;
use std::sync::atomic::Ordering::SeqCst;
use std::sync::atomic::raw::ptr::swap;

/// An owner of a compiled schema, or none if the pointer is null. A caller in C keeps it, and
/// neither follows nor copies the pointer. It may pass the handle to another thread.
///
/// A call takes the owner out of the handle and puts it back, because a pointer that owns memory
/// cannot be read behind a `&`. So a handle is in one call at a time. Two handles of one schema can
/// be in calls at once. Each exchange is one step of the machine, so that of two calls which a caller
/// lets meet on one handle, which it must not, one alone has the owner, and the other finds none.
#[repr(C)]
pub struct SchemaHandle {
    at: *mut u8,
    pub ghost schema: { Option Schema } by { coded_option schema_code },
}

impl fmt::Debug for SchemaHandle {
    fn fmt<W: fmt::Write>(&self, f: &mut fmt::Formatter<W>) -> fmt::Result {
        f.debug_struct("SchemaHandle").finish_non_exhaustive()
    }
}

impl Model for SchemaHandle {
    ghost also_owns = { λ h. slot_owns the_row h.at h.schema };
}

// What it owns, an `Arc` of plain data in a block of the heap, is no thread's own.
unsafe impl Send for SchemaHandle {}

// Does nothing. A call demands the proof that a `T` may pass to another thread.
fn assert_send<T: Send>() {}

impl SchemaHandle {
    // Returns the handle with this schema. Proved by hand, because it makes a pointer.
    pub(crate) fn of(schema: Option<Box<CompiledSchema>>) -> SchemaHandle
        ensures { result.schema ≡ option_map (λ schema. schema.value) schema }
    {
        let Some(schema) = schema else {
            return SchemaHandle { at: null_mut() };
        };
        let (at, _) = Box::into_raw_with_allocator(schema);
        SchemaHandle { at: at as *mut u8 }
    }

    // Returns the schema, if there is one. Proved by hand, because it tests a pointer and casts it.
    fn into_box(self, alloc: Global) -> Option<Box<CompiledSchema>>
        ensures { option_map (λ schema. schema.value) result ≡ self.schema }
    {
        let SchemaHandle { at } = self;
        if at.is_null() {
            return None;
        }
        unsafe { Some(Box::from_raw(alloc, at as *mut CompiledSchema)) }
    }

    // Puts another schema in, or none, and returns what was there, in one step. Proved by hand, because
    // it makes a pointer.
    fn exchange(&mut self, new: SchemaHandle) -> SchemaHandle
        ensures found { result.schema ≡ self.old.schema }
        ensures left { self.new.schema ≡ new.schema }
    {
        let SchemaHandle { at } = new;
        let cell = &raw mut self.at as *const *mut u8;
        let found = unsafe { swap::<u8, Brand>(cell, at, SeqCst) };
        SchemaHandle { at: found }
    }

    /// Takes the schema out.
    pub fn take(&mut self, alloc: Global) -> Option<Box<CompiledSchema>>
        ensures taken { option_map (λ schema. schema.value) result ≡ self.old.schema }
        ensures left { self.new.schema ≡ None }
    {
        self.exchange(SchemaHandle::of(None)).into_box(alloc)
    }

    /// Puts a schema in, and frees the one that is there.
    pub fn put(&mut self, alloc: Global, schema: Box<CompiledSchema>)
        ensures { self.new.schema ≡ Some schema.value }
    {
        assert_send::<SchemaHandle>();
        let handle = SchemaHandle::of(Some(schema));
        drop(self.exchange(handle).into_box(alloc));
    }
}

//! The values of the field calculus: types, local values, fields, exports and the builtins.
#![tactic(auto)]

mod builtins;
mod digits;
mod exports;
mod fields;
mod hoods;
mod laws;
mod limits;
mod memory;
mod names;
mod operators;
mod types;
mod values;

pub use builtins::{Builtin, apply};
pub use digits::number;
pub use exports::{Export, Slot, Slots, copy_export};
pub use laws::{builtin_has_value, equal_says_same, fields_are_read, least_and_greatest};
pub use limits::{
    GREATEST, MOST_BYTES, MOST_LINKS, MOST_NODES, MOST_SCENARIO_DEVICES, MOST_WORKERS,
};
pub use memory::Memory;
pub use names::{Word, find_word, is_digit, is_letter, is_name, is_name_byte};
pub use operators::{add_cut, multiply_cut};
pub use types::{Declared, InputDecl, InputTy, LocalTy, Name, Ty, copy_declared, inner};
pub use values::{FieldVal, Local, Value, blank_of, compare, copy, copy_locals, fits, overwrite};

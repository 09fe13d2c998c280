//! What is found at a record.

use hg_base::NoMemory;
use std::alloc::Global;

/// The rule that is broken, and the field that breaks it, counted from 0. It is none if the record as a whole breaks it.
#[derive(Drop)]
pub(crate) struct Finding {
    pub field: Option<usize>,
    pub why: String,
}

impl Finding {
    pub(crate) fn at(field: usize, why: String) -> Result<Finding, NoMemory> {
        Ok(Finding {
            field: Some(field),
            why,
        })
    }

    pub(crate) fn of_record(why: String) -> Result<Finding, NoMemory> {
        Ok(Finding { field: None, why })
    }

    /// The same, where the rule is always said in one way.
    pub(crate) fn told(
        alloc: Global,
        field: Option<usize>,
        why: &str,
    ) -> Result<Finding, NoMemory> {
        let why = String::from_str(alloc, why)?;
        Ok(Finding { field, why })
    }
}

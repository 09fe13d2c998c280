//! A history of commits in a view.

ghost use Rattle.hg_base.specs.History.{History};
ghost use Rattle.hg_rule.specs.Codes.{history_code};
ghost use base.Fml.{ftrue};

use std::marker::Model;

/// Groups of commits, oldest first. No code makes a value of this type: contracts speak of it.
pub struct Groups {
    pub ghost list: { History } by { history_code },
}

impl Model for Groups {
    ghost also_owns = { λ _. ftrue };
}

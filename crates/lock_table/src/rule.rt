use crate::view::View;
use acpi_regs::Recorded;
use atomic_table::TableRule;

/// The rule of the table: words, views and board stand for a sound core.
pub struct Rule;

impl<B: Recorded> TableRule<Option<B>, View, B> for Rule {
    ghost use Rattle.lock_table.specs.Rule.{Kept};
    ghost use Rattle.lock_table.specs.Views.{first_view};

    ghost holds = { Kept B.Base.lists B.base B.entries };

    ghost first = { λ _. first_view };
}

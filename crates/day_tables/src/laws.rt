//! Laws of the bulletin.
ghost use Rattle.day_tables.specs.Laws.{AllVolumesAddUp};

/// What was traded in the book and in requests adds up to all that was traded (17 CFR 37.901).
pub fn volumes_add_up()
    ensures { AllVolumesAddUp }
{}

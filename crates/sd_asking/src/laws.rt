//! Laws on replies of links that tell no directory.
ghost use Rattle.sd_asking.specs.Laws.{CutDecides, IndefiniteDecides, CodeDecides};

/// What a reply cut behind its first byte, one of indefinite length, and a code alone decide: laws without code.
pub fn decides_alone()
    ensures cut { CutDecides }
    ensures indefinite { IndefiniteDecides }
    ensures coded { CodeDecides }
{}

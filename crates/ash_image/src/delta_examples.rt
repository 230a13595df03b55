//! Bodies of records that were written by hand, byte by byte. The function does nothing when it runs.
ghost use Rattle.ash_image.specs.Delta.{IsDeltaBody};
ghost use Rattle.ash_image.specs.DeltaExamples.{loaded_m, loaded_m_body};
ghost use Rattle.ash_image.specs.DeltaExamples.{discarded_m, discarded_m_body};
ghost use Rattle.ash_image.specs.DeltaExamples.{changed_m, changed_m_body};
ghost use Rattle.ash_image.specs.DeltaExamples.{loaded_and_discarded, loaded_and_discarded_body};
ghost use Rattle.ash_image.specs.Deltas.{IsDeltasBody};
ghost use Rattle.ash_image.specs.declared.version.Version.TheVariants.{Two};

/// Of which deltas a few bytes are the body: a module is added, one is removed, a global changes, and a module is added
/// and removed again.
pub fn worked_deltas()
    ensures added { IsDeltaBody loaded_m_body Two loaded_m }
    ensures removed { IsDeltaBody discarded_m_body Two discarded_m }
    ensures changed { IsDeltaBody changed_m_body Two changed_m }
    ensures both { IsDeltasBody loaded_and_discarded_body loaded_and_discarded }
{}

// The law of a service's root records: one with a time has one spelling, and so has one without.

ghost use Rattle.std.specs.Prelude.{◌≡◌, length, if◌then◌else◌, Bool};
ghost use Rattle.tw_base.specs.format.Codecs.{IsUnambiguous};
ghost use Rattle.tw_answers.specs.declared.limits.TheConstants.{ROOT_BYTES, TIMED_ROOT_BYTES};
ghost use Rattle.tw_answers.specs.Roots.{root_codec};
ghost use Rattle.tw_answers.specs.declared.root.RootRecord.{RootRecord};

/// A root record with a time has one spelling, and so has one without.
pub fn record_laws()
    // A root record with a time is spelled in one way, and its bytes spell one record; so is one without.
    ensures records { (is_timed : Bool) → IsUnambiguous (root_codec is_timed) }
    // One with a time has 120 bytes, and one without 112.
    ensures sizes { (is_timed : Bool) (r : RootRecord) → (root_codec is_timed).Fits r → length ((root_codec is_timed).write r) ≡ (if is_timed then TIMED_ROOT_BYTES else ROOT_BYTES) }
{}

// What the bytes of a step page are.

ghost use Rattle.std.specs.Prelude.{ℕ};
ghost use Rattle.tw_base.specs.format.Codecs.{IsUnambiguous};
ghost use Rattle.tw_steppage.specs.StepBytes.{paged_codec};

/// The page of a step has one spelling, and its bytes spell one step.
pub fn page_laws()
    // A step page is spelled in one way, and its bytes spell one value.
    ensures steps { (step : ℕ) → IsUnambiguous (paged_codec step) }
{}

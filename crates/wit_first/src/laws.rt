//! What holds of first faults: each breaks a rule, and where there is none, no rule is broken.
ghost use Rattle.wit_first.specs.Laws.{KeysAgree, ListsAgree, MetadataAgree, StabilityAgrees};

/// Of attributes that say how stable a thing is: E30 to E34.
pub fn stability_agrees()
    ensures { StabilityAgrees }
{}

/// Of attributes that may give an external id too: E30 to E35.
pub fn metadata_agree()
    ensures { MetadataAgree }
{}

/// Of the fields, flags or cases in the body of a definition: E19 to E21 and E23 to E25.
pub fn lists_agree()
    ensures { ListsAgree }
{}

/// Of the key of a map: E26.
pub fn keys_agree()
    ensures { KeysAgree }
{}

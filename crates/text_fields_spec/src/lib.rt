// The text of a field: definitions (specs/ContentText.antt) and their laws. The names of fields stand in eb_fields_spec.
#![tactic(auto)]

// The reading of a payload, the entries on it and the lister's text as they were before document 02's Note 2, and the reader of a sheet as it was before
// Note 6; and that every number, place, byte and text is still the same on every input. Nothing to run.
#![tactic(auto)]

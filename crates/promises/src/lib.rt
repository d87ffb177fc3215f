// The end of the reading: every public theorem in one record.

#![tactic(auto)]

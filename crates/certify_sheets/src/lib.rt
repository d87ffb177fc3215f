// What is promised of the check of a flow found elsewhere: one answer for every call, and that what our own sheets show passes it.

#![tactic(auto)]

//! Laws of lists, stated once for the crates above: what a list holds, and that it can be told, that no entry stands twice, rising
//! lists, lists made of the lists of entries, how many keys a map or a set has, walks along steps, and the cases of a test.
#![tactic(auto)]

// The public calls as C programs call them, a file for each. An export puts what it is given together as the values that the library's call takes, and
// answers what that answers, or the number of its refusal. These twelve are all that the archive exports; their heads are C's, with
// each lent slice by itself.
#![tactic(auto)]

mod arranging;
mod explain;
mod list;
mod list_regions;
mod place;
mod point;
mod screen;
mod take;
mod version;
mod withdraw;

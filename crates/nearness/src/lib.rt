// Laws of extents against document 01's containment: what lies apart is not taken, and neither holds a point nor flips its sign. No code.
#![tactic(auto)]

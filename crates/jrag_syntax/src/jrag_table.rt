// The table of the grammar `jrag`, written by tools/table.py. A proof shows that it fits.
use ll_parser::Symbol;
use ll_parser::Symbol::{Action, Nonterminal, Terminal};

pub const JRAG_OF: [u8; 158] = [
    0, 1, 2, 2, 3, 3, 4, 4, 4, 4, 4, 5, 5, 5, 6, 6, 7, 7, 8, 8, 9, 9, 10, 10, 11, 11, 12, 12, 13,
    13, 14, 14, 15, 15, 16, 16, 17, 17, 17, 17, 18, 18, 18, 18, 18, 18, 18, 18, 18, 19, 19, 19, 19,
    19, 20, 20, 20, 20, 21, 22, 23, 24, 24, 25, 26, 26, 27, 28, 28, 29, 30, 30, 30, 31, 32, 32, 32,
    32, 32, 32, 33, 34, 34, 34, 35, 36, 36, 37, 37, 37, 38, 38, 39, 39, 39, 39, 40, 40, 40, 41, 41,
    41, 42, 42, 42, 43, 43, 44, 44, 44, 44, 44, 45, 46, 46, 46, 46, 46, 46, 46, 46, 46, 46, 46, 46,
    46, 46, 47, 47, 48, 48, 49, 49, 49, 49, 50, 50, 51, 51, 52, 52, 53, 53, 54, 54, 55, 55, 55, 55,
    55, 55, 55, 55, 56, 57, 57, 57, 57,
];

pub const JRAG_STARTS: [u16; 159] = [
    0, 2, 3, 12, 12, 15, 15, 30, 44, 58, 74, 91, 94, 97, 98, 100, 101, 103, 104, 109, 110, 113,
    114, 121, 122, 126, 127, 131, 132, 135, 136, 141, 142, 148, 148, 150, 155, 156, 157, 158, 159,
    160, 161, 162, 163, 164, 165, 166, 167, 168, 169, 170, 171, 172, 173, 174, 175, 176, 177, 180,
    182, 189, 194, 194, 196, 200, 200, 202, 206, 206, 208, 212, 216, 216, 218, 222, 226, 230, 234,
    239, 239, 241, 245, 249, 249, 251, 255, 255, 258, 261, 262, 263, 265, 267, 271, 275, 277, 280,
    283, 287, 289, 297, 301, 303, 309, 313, 315, 317, 321, 325, 328, 330, 332, 334, 342, 346, 355,
    364, 372, 380, 388, 396, 405, 412, 419, 425, 430, 435, 439, 439, 441, 441, 444, 447, 450, 455,
    461, 467, 473, 479, 487, 487, 490, 491, 495, 495, 497, 499, 501, 503, 505, 507, 509, 516, 519,
    520, 523, 526, 530,
];

pub const JRAG_BODIES: [Symbol; 530] = [
    Nonterminal(2), // 0. file: aspects
    Action(26), // 0. file: @no_items
    Nonterminal(21), // 1. expression: whole
    Nonterminal(2), // 2. aspects: aspects
    Action(29), // 2. aspects: @close
    Terminal(34), // 2. aspects: '}'
    Nonterminal(3), // 2. aspects: items
    Action(27), // 2. aspects: @open
    Terminal(33), // 2. aspects: '{'
    Action(3), // 2. aspects: @name
    Nonterminal(18), // 2. aspects: name
    Terminal(4), // 2. aspects: 'aspect'
    Nonterminal(3), // 4. items: items
    Action(28), // 4. items: @item
    Nonterminal(4), // 4. items: item
    Action(30), // 6. item: @synthesized
    Terminal(40), // 6. item: ';'
    Nonterminal(9), // 6. item: equation
    Nonterminal(8), // 6. item: circular
    Terminal(37), // 6. item: ')'
    Nonterminal(14), // 6. item: parameters
    Terminal(36), // 6. item: '('
    Action(3), // 6. item: @name
    Nonterminal(18), // 6. item: name
    Terminal(35), // 6. item: '.'
    Action(3), // 6. item: @name
    Nonterminal(18), // 6. item: name
    Nonterminal(16), // 6. item: type
    Nonterminal(5), // 6. item: modifiers
    Terminal(5), // 6. item: 'syn'
    Action(31), // 7. item: @inherited
    Terminal(40), // 7. item: ';'
    Nonterminal(8), // 7. item: circular
    Terminal(37), // 7. item: ')'
    Nonterminal(14), // 7. item: parameters
    Terminal(36), // 7. item: '('
    Action(3), // 7. item: @name
    Nonterminal(18), // 7. item: name
    Terminal(35), // 7. item: '.'
    Action(3), // 7. item: @name
    Nonterminal(18), // 7. item: name
    Nonterminal(16), // 7. item: type
    Nonterminal(7), // 7. item: lazy
    Terminal(6), // 7. item: 'inh'
    Action(32), // 8. item: @equation
    Terminal(40), // 8. item: ';'
    Nonterminal(21), // 8. item: whole
    Terminal(42), // 8. item: '='
    Nonterminal(10), // 8. item: path
    Terminal(37), // 8. item: ')'
    Nonterminal(14), // 8. item: parameters
    Terminal(36), // 8. item: '('
    Action(3), // 8. item: @name
    Nonterminal(18), // 8. item: name
    Terminal(35), // 8. item: '.'
    Action(3), // 8. item: @name
    Nonterminal(18), // 8. item: name
    Terminal(7), // 8. item: 'eq'
    Action(33), // 9. item: @collection
    Terminal(40), // 9. item: ';'
    Nonterminal(12), // 9. item: root
    Nonterminal(11), // 9. item: method
    Terminal(39), // 9. item: ']'
    Nonterminal(21), // 9. item: whole
    Terminal(38), // 9. item: '['
    Terminal(37), // 9. item: ')'
    Terminal(36), // 9. item: '('
    Action(3), // 9. item: @name
    Nonterminal(18), // 9. item: name
    Terminal(35), // 9. item: '.'
    Action(3), // 9. item: @name
    Nonterminal(18), // 9. item: name
    Nonterminal(16), // 9. item: type
    Terminal(8), // 9. item: 'coll'
    Action(34), // 10. item: @contribution
    Terminal(40), // 10. item: ';'
    Nonterminal(21), // 10. item: whole
    Terminal(13), // 10. item: 'for'
    Terminal(37), // 10. item: ')'
    Terminal(36), // 10. item: '('
    Action(3), // 10. item: @name
    Nonterminal(18), // 10. item: name
    Terminal(35), // 10. item: '.'
    Action(3), // 10. item: @name
    Nonterminal(18), // 10. item: name
    Terminal(12), // 10. item: 'to'
    Nonterminal(13), // 10. item: condition
    Nonterminal(21), // 10. item: whole
    Terminal(25), // 10. item: 'contributes'
    Action(3), // 10. item: @name
    Nonterminal(18), // 10. item: name
    Action(38), // 11. modifiers: @lazy_first
    Nonterminal(6), // 11. modifiers: higher_order
    Terminal(10), // 11. modifiers: 'lazy'
    Action(39), // 12. modifiers: @higher_order_first
    Nonterminal(7), // 12. modifiers: lazy
    Terminal(9), // 12. modifiers: 'nta'
    Action(37), // 13. modifiers: @no_modifiers
    Action(35), // 14. higher_order: @present
    Terminal(9), // 14. higher_order: 'nta'
    Action(36), // 15. higher_order: @absent
    Action(35), // 16. lazy: @present
    Terminal(10), // 16. lazy: 'lazy'
    Action(36), // 17. lazy: @absent
    Action(45), // 18. circular: @circular
    Terminal(39), // 18. circular: ']'
    Nonterminal(21), // 18. circular: whole
    Terminal(38), // 18. circular: '['
    Terminal(28), // 18. circular: 'circular'
    Action(46), // 19. circular: @not_circular
    Action(47), // 20. equation: @body
    Nonterminal(21), // 20. equation: whole
    Terminal(42), // 20. equation: '='
    Action(48), // 21. equation: @no_body
    Action(49), // 22. path: @path
    Terminal(37), // 22. path: ')'
    Nonterminal(14), // 22. path: parameters
    Terminal(36), // 22. path: '('
    Action(3), // 22. path: @name
    Nonterminal(18), // 22. path: name
    Terminal(35), // 22. path: '.'
    Action(50), // 23. path: @no_path
    Action(51), // 24. method: @method
    Action(3), // 24. method: @name
    Nonterminal(18), // 24. method: name
    Terminal(26), // 24. method: 'with'
    Action(52), // 25. method: @no_method
    Action(53), // 26. root: @root
    Action(3), // 26. root: @name
    Nonterminal(18), // 26. root: name
    Terminal(27), // 26. root: 'root'
    Action(54), // 27. root: @no_root
    Action(55), // 28. condition: @condition
    Nonterminal(21), // 28. condition: whole
    Terminal(11), // 28. condition: 'when'
    Action(56), // 29. condition: @no_condition
    Nonterminal(15), // 30. parameters: more_parameters
    Action(43), // 30. parameters: @first_parameter
    Action(3), // 30. parameters: @name
    Nonterminal(18), // 30. parameters: name
    Nonterminal(16), // 30. parameters: type
    Action(42), // 31. parameters: @no_parameters
    Nonterminal(15), // 32. more_parameters: more_parameters
    Action(44), // 32. more_parameters: @parameter
    Action(3), // 32. more_parameters: @name
    Nonterminal(18), // 32. more_parameters: name
    Nonterminal(16), // 32. more_parameters: type
    Terminal(41), // 32. more_parameters: ','
    Action(40), // 34. type: @type
    Nonterminal(17), // 34. type: type_name
    Action(41), // 35. type: @set
    Terminal(51), // 35. type: '>'
    Nonterminal(17), // 35. type: type_name
    Terminal(49), // 35. type: '<'
    Terminal(21), // 35. type: 'Set'
    Nonterminal(18), // 36. type_name: name
    Terminal(22), // 37. type_name: 'boolean'
    Terminal(23), // 38. type_name: 'int'
    Terminal(24), // 39. type_name: 'String'
    Terminal(1), // 40. name: Name
    Terminal(25), // 41. name: 'contributes'
    Terminal(26), // 42. name: 'with'
    Terminal(27), // 43. name: 'root'
    Terminal(28), // 44. name: 'circular'
    Terminal(29), // 45. name: 'each'
    Terminal(30), // 46. name: 'any'
    Terminal(31), // 47. name: 'all'
    Terminal(32), // 48. name: 'first'
    Terminal(1), // 49. plain: Name
    Terminal(25), // 50. plain: 'contributes'
    Terminal(26), // 51. plain: 'with'
    Terminal(27), // 52. plain: 'root'
    Terminal(28), // 53. plain: 'circular'
    Terminal(29), // 54. quantifier: 'each'
    Terminal(30), // 55. quantifier: 'any'
    Terminal(31), // 56. quantifier: 'all'
    Terminal(32), // 57. quantifier: 'first'
    Action(2), // 58. whole: @end
    Nonterminal(22), // 58. whole: expr
    Action(1), // 58. whole: @begin
    Nonterminal(23), // 59. expr: behind_unary
    Nonterminal(37), // 59. expr: unary
    Nonterminal(24), // 60. behind_unary: choice
    Nonterminal(26), // 60. behind_unary: more_or
    Nonterminal(28), // 60. behind_unary: more_and
    Nonterminal(30), // 60. behind_unary: more_equality
    Nonterminal(32), // 60. behind_unary: more_relation
    Nonterminal(34), // 60. behind_unary: more_sum
    Nonterminal(36), // 60. behind_unary: more_product
    Action(25), // 61. choice: @choose
    Nonterminal(22), // 61. choice: expr
    Terminal(44), // 61. choice: ':'
    Nonterminal(22), // 61. choice: expr
    Terminal(43), // 61. choice: '?'
    Nonterminal(26), // 63. or: more_or
    Nonterminal(27), // 63. or: and
    Nonterminal(26), // 64. more_or: more_or
    Action(24), // 64. more_or: @or
    Nonterminal(27), // 64. more_or: and
    Terminal(45), // 64. more_or: '||'
    Nonterminal(28), // 66. and: more_and
    Nonterminal(29), // 66. and: equality
    Nonterminal(28), // 67. more_and: more_and
    Action(23), // 67. more_and: @and
    Nonterminal(29), // 67. more_and: equality
    Terminal(46), // 67. more_and: '&&'
    Nonterminal(30), // 69. equality: more_equality
    Nonterminal(31), // 69. equality: relation
    Nonterminal(30), // 70. more_equality: more_equality
    Action(22), // 70. more_equality: @equate
    Nonterminal(31), // 70. more_equality: relation
    Terminal(47), // 70. more_equality: '=='
    Nonterminal(30), // 71. more_equality: more_equality
    Action(22), // 71. more_equality: @equate
    Nonterminal(31), // 71. more_equality: relation
    Terminal(48), // 71. more_equality: '!='
    Nonterminal(32), // 73. relation: more_relation
    Nonterminal(33), // 73. relation: sum
    Nonterminal(32), // 74. more_relation: more_relation
    Action(20), // 74. more_relation: @compare
    Nonterminal(33), // 74. more_relation: sum
    Terminal(49), // 74. more_relation: '<'
    Nonterminal(32), // 75. more_relation: more_relation
    Action(20), // 75. more_relation: @compare
    Nonterminal(33), // 75. more_relation: sum
    Terminal(50), // 75. more_relation: '<='
    Nonterminal(32), // 76. more_relation: more_relation
    Action(20), // 76. more_relation: @compare
    Nonterminal(33), // 76. more_relation: sum
    Terminal(51), // 76. more_relation: '>'
    Nonterminal(32), // 77. more_relation: more_relation
    Action(20), // 77. more_relation: @compare
    Nonterminal(33), // 77. more_relation: sum
    Terminal(52), // 77. more_relation: '>='
    Nonterminal(32), // 78. more_relation: more_relation
    Action(21), // 78. more_relation: @instance
    Action(3), // 78. more_relation: @name
    Nonterminal(18), // 78. more_relation: name
    Terminal(20), // 78. more_relation: 'instanceof'
    Nonterminal(34), // 80. sum: more_sum
    Nonterminal(35), // 80. sum: product
    Nonterminal(34), // 81. more_sum: more_sum
    Action(19), // 81. more_sum: @sum
    Nonterminal(35), // 81. more_sum: product
    Terminal(53), // 81. more_sum: '+'
    Nonterminal(34), // 82. more_sum: more_sum
    Action(19), // 82. more_sum: @sum
    Nonterminal(35), // 82. more_sum: product
    Terminal(54), // 82. more_sum: '-'
    Nonterminal(36), // 84. product: more_product
    Nonterminal(37), // 84. product: unary
    Nonterminal(36), // 85. more_product: more_product
    Action(18), // 85. more_product: @product
    Nonterminal(37), // 85. more_product: unary
    Terminal(55), // 85. more_product: '*'
    Action(16), // 87. unary: @not
    Nonterminal(37), // 87. unary: unary
    Terminal(56), // 87. unary: '!'
    Action(17), // 88. unary: @negate
    Nonterminal(37), // 88. unary: unary
    Terminal(54), // 88. unary: '-'
    Nonterminal(38), // 89. unary: cast
    Nonterminal(39), // 90. cast: operand
    Nonterminal(52), // 91. cast: more_postfix
    Nonterminal(56), // 91. cast: source
    Nonterminal(40), // 92. operand: in_parentheses
    Terminal(36), // 92. operand: '('
    Nonterminal(52), // 93. operand: more_postfix
    Nonterminal(47), // 93. operand: behind_name
    Action(3), // 93. operand: @name
    Nonterminal(19), // 93. operand: plain
    Nonterminal(52), // 94. operand: more_postfix
    Nonterminal(48), // 94. operand: behind_quantifier
    Action(3), // 94. operand: @name
    Nonterminal(20), // 94. operand: quantifier
    Nonterminal(52), // 95. operand: more_postfix
    Nonterminal(55), // 95. operand: literal
    Nonterminal(41), // 96. in_parentheses: name_in_parentheses
    Action(3), // 96. in_parentheses: @name
    Nonterminal(19), // 96. in_parentheses: plain
    Nonterminal(42), // 97. in_parentheses: quantifier_in_parentheses
    Action(3), // 97. in_parentheses: @name
    Nonterminal(20), // 97. in_parentheses: quantifier
    Nonterminal(52), // 98. in_parentheses: more_postfix
    Action(14), // 98. in_parentheses: @group
    Terminal(37), // 98. in_parentheses: ')'
    Nonterminal(44), // 98. in_parentheses: not_name
    Nonterminal(43), // 99. name_in_parentheses: cast_or_group
    Terminal(37), // 99. name_in_parentheses: ')'
    Nonterminal(52), // 100. name_in_parentheses: more_postfix
    Action(14), // 100. name_in_parentheses: @group
    Terminal(37), // 100. name_in_parentheses: ')'
    Nonterminal(45), // 100. name_in_parentheses: behind_postfix
    Action(10), // 100. name_in_parentheses: @call
    Terminal(37), // 100. name_in_parentheses: ')'
    Nonterminal(53), // 100. name_in_parentheses: arguments
    Terminal(36), // 100. name_in_parentheses: '('
    Nonterminal(52), // 101. name_in_parentheses: more_postfix
    Action(14), // 101. name_in_parentheses: @group
    Terminal(37), // 101. name_in_parentheses: ')'
    Nonterminal(46), // 101. name_in_parentheses: operator
    Nonterminal(43), // 102. quantifier_in_parentheses: cast_or_group
    Terminal(37), // 102. quantifier_in_parentheses: ')'
    Nonterminal(52), // 103. quantifier_in_parentheses: more_postfix
    Action(14), // 103. quantifier_in_parentheses: @group
    Terminal(37), // 103. quantifier_in_parentheses: ')'
    Nonterminal(45), // 103. quantifier_in_parentheses: behind_postfix
    Nonterminal(49), // 103. quantifier_in_parentheses: in_quantifier
    Terminal(36), // 103. quantifier_in_parentheses: '('
    Nonterminal(52), // 104. quantifier_in_parentheses: more_postfix
    Action(14), // 104. quantifier_in_parentheses: @group
    Terminal(37), // 104. quantifier_in_parentheses: ')'
    Nonterminal(46), // 104. quantifier_in_parentheses: operator
    Action(15), // 105. cast_or_group: @cast
    Nonterminal(39), // 105. cast_or_group: operand
    Nonterminal(52), // 106. cast_or_group: more_postfix
    Action(14), // 106. cast_or_group: @group
    Nonterminal(23), // 107. not_name: behind_unary
    Action(16), // 107. not_name: @not
    Nonterminal(37), // 107. not_name: unary
    Terminal(56), // 107. not_name: '!'
    Nonterminal(23), // 108. not_name: behind_unary
    Action(17), // 108. not_name: @negate
    Nonterminal(37), // 108. not_name: unary
    Terminal(54), // 108. not_name: '-'
    Nonterminal(23), // 109. not_name: behind_unary
    Nonterminal(40), // 109. not_name: in_parentheses
    Terminal(36), // 109. not_name: '('
    Nonterminal(45), // 110. not_name: behind_postfix
    Nonterminal(55), // 110. not_name: literal
    Nonterminal(45), // 111. not_name: behind_postfix
    Nonterminal(56), // 111. not_name: source
    Nonterminal(23), // 112. behind_postfix: behind_unary
    Nonterminal(52), // 112. behind_postfix: more_postfix
    Nonterminal(45), // 113. operator: behind_postfix
    Action(11), // 113. operator: @member
    Terminal(37), // 113. operator: ')'
    Nonterminal(53), // 113. operator: arguments
    Terminal(36), // 113. operator: '('
    Action(3), // 113. operator: @name
    Nonterminal(18), // 113. operator: name
    Terminal(35), // 113. operator: '.'
    Nonterminal(23), // 114. operator: behind_unary
    Action(18), // 114. operator: @product
    Nonterminal(37), // 114. operator: unary
    Terminal(55), // 114. operator: '*'
    Nonterminal(24), // 115. operator: choice
    Nonterminal(26), // 115. operator: more_or
    Nonterminal(28), // 115. operator: more_and
    Nonterminal(30), // 115. operator: more_equality
    Nonterminal(32), // 115. operator: more_relation
    Nonterminal(34), // 115. operator: more_sum
    Action(19), // 115. operator: @sum
    Nonterminal(35), // 115. operator: product
    Terminal(53), // 115. operator: '+'
    Nonterminal(24), // 116. operator: choice
    Nonterminal(26), // 116. operator: more_or
    Nonterminal(28), // 116. operator: more_and
    Nonterminal(30), // 116. operator: more_equality
    Nonterminal(32), // 116. operator: more_relation
    Nonterminal(34), // 116. operator: more_sum
    Action(19), // 116. operator: @sum
    Nonterminal(35), // 116. operator: product
    Terminal(54), // 116. operator: '-'
    Nonterminal(24), // 117. operator: choice
    Nonterminal(26), // 117. operator: more_or
    Nonterminal(28), // 117. operator: more_and
    Nonterminal(30), // 117. operator: more_equality
    Nonterminal(32), // 117. operator: more_relation
    Action(20), // 117. operator: @compare
    Nonterminal(33), // 117. operator: sum
    Terminal(49), // 117. operator: '<'
    Nonterminal(24), // 118. operator: choice
    Nonterminal(26), // 118. operator: more_or
    Nonterminal(28), // 118. operator: more_and
    Nonterminal(30), // 118. operator: more_equality
    Nonterminal(32), // 118. operator: more_relation
    Action(20), // 118. operator: @compare
    Nonterminal(33), // 118. operator: sum
    Terminal(50), // 118. operator: '<='
    Nonterminal(24), // 119. operator: choice
    Nonterminal(26), // 119. operator: more_or
    Nonterminal(28), // 119. operator: more_and
    Nonterminal(30), // 119. operator: more_equality
    Nonterminal(32), // 119. operator: more_relation
    Action(20), // 119. operator: @compare
    Nonterminal(33), // 119. operator: sum
    Terminal(51), // 119. operator: '>'
    Nonterminal(24), // 120. operator: choice
    Nonterminal(26), // 120. operator: more_or
    Nonterminal(28), // 120. operator: more_and
    Nonterminal(30), // 120. operator: more_equality
    Nonterminal(32), // 120. operator: more_relation
    Action(20), // 120. operator: @compare
    Nonterminal(33), // 120. operator: sum
    Terminal(52), // 120. operator: '>='
    Nonterminal(24), // 121. operator: choice
    Nonterminal(26), // 121. operator: more_or
    Nonterminal(28), // 121. operator: more_and
    Nonterminal(30), // 121. operator: more_equality
    Nonterminal(32), // 121. operator: more_relation
    Action(21), // 121. operator: @instance
    Action(3), // 121. operator: @name
    Nonterminal(18), // 121. operator: name
    Terminal(20), // 121. operator: 'instanceof'
    Nonterminal(24), // 122. operator: choice
    Nonterminal(26), // 122. operator: more_or
    Nonterminal(28), // 122. operator: more_and
    Nonterminal(30), // 122. operator: more_equality
    Action(22), // 122. operator: @equate
    Nonterminal(31), // 122. operator: relation
    Terminal(47), // 122. operator: '=='
    Nonterminal(24), // 123. operator: choice
    Nonterminal(26), // 123. operator: more_or
    Nonterminal(28), // 123. operator: more_and
    Nonterminal(30), // 123. operator: more_equality
    Action(22), // 123. operator: @equate
    Nonterminal(31), // 123. operator: relation
    Terminal(48), // 123. operator: '!='
    Nonterminal(24), // 124. operator: choice
    Nonterminal(26), // 124. operator: more_or
    Nonterminal(28), // 124. operator: more_and
    Action(23), // 124. operator: @and
    Nonterminal(29), // 124. operator: equality
    Terminal(46), // 124. operator: '&&'
    Nonterminal(24), // 125. operator: choice
    Nonterminal(26), // 125. operator: more_or
    Action(24), // 125. operator: @or
    Nonterminal(27), // 125. operator: and
    Terminal(45), // 125. operator: '||'
    Action(25), // 126. operator: @choose
    Nonterminal(22), // 126. operator: expr
    Terminal(44), // 126. operator: ':'
    Nonterminal(22), // 126. operator: expr
    Terminal(43), // 126. operator: '?'
    Action(10), // 127. behind_name: @call
    Terminal(37), // 127. behind_name: ')'
    Nonterminal(53), // 127. behind_name: arguments
    Terminal(36), // 127. behind_name: '('
    Nonterminal(49), // 129. behind_quantifier: in_quantifier
    Terminal(36), // 129. behind_quantifier: '('
    Action(10), // 131. in_quantifier: @call
    Terminal(37), // 131. in_quantifier: ')'
    Action(7), // 131. in_quantifier: @no_arguments
    Nonterminal(50), // 132. in_quantifier: name_in_quantifier
    Action(3), // 132. in_quantifier: @name
    Nonterminal(19), // 132. in_quantifier: plain
    Nonterminal(51), // 133. in_quantifier: quantifier_in_quantifier
    Action(3), // 133. in_quantifier: @name
    Nonterminal(20), // 133. in_quantifier: quantifier
    Action(10), // 134. in_quantifier: @call
    Terminal(37), // 134. in_quantifier: ')'
    Nonterminal(54), // 134. in_quantifier: more_arguments
    Action(8), // 134. in_quantifier: @first_argument
    Nonterminal(44), // 134. in_quantifier: not_name
    Action(13), // 135. name_in_quantifier: @quantified
    Terminal(37), // 135. name_in_quantifier: ')'
    Nonterminal(22), // 135. name_in_quantifier: expr
    Terminal(57), // 135. name_in_quantifier: '|'
    Nonterminal(22), // 135. name_in_quantifier: expr
    Terminal(44), // 135. name_in_quantifier: ':'
    Action(10), // 136. name_in_quantifier: @call
    Terminal(37), // 136. name_in_quantifier: ')'
    Nonterminal(54), // 136. name_in_quantifier: more_arguments
    Action(8), // 136. name_in_quantifier: @first_argument
    Nonterminal(45), // 136. name_in_quantifier: behind_postfix
    Nonterminal(47), // 136. name_in_quantifier: behind_name
    Action(13), // 137. quantifier_in_quantifier: @quantified
    Terminal(37), // 137. quantifier_in_quantifier: ')'
    Nonterminal(22), // 137. quantifier_in_quantifier: expr
    Terminal(57), // 137. quantifier_in_quantifier: '|'
    Nonterminal(22), // 137. quantifier_in_quantifier: expr
    Terminal(44), // 137. quantifier_in_quantifier: ':'
    Action(10), // 138. quantifier_in_quantifier: @call
    Terminal(37), // 138. quantifier_in_quantifier: ')'
    Nonterminal(54), // 138. quantifier_in_quantifier: more_arguments
    Action(8), // 138. quantifier_in_quantifier: @first_argument
    Nonterminal(45), // 138. quantifier_in_quantifier: behind_postfix
    Nonterminal(48), // 138. quantifier_in_quantifier: behind_quantifier
    Nonterminal(52), // 139. more_postfix: more_postfix
    Action(11), // 139. more_postfix: @member
    Terminal(37), // 139. more_postfix: ')'
    Nonterminal(53), // 139. more_postfix: arguments
    Terminal(36), // 139. more_postfix: '('
    Action(3), // 139. more_postfix: @name
    Nonterminal(18), // 139. more_postfix: name
    Terminal(35), // 139. more_postfix: '.'
    Nonterminal(54), // 141. arguments: more_arguments
    Action(8), // 141. arguments: @first_argument
    Nonterminal(22), // 141. arguments: expr
    Action(7), // 142. arguments: @no_arguments
    Nonterminal(54), // 143. more_arguments: more_arguments
    Action(9), // 143. more_arguments: @argument
    Nonterminal(22), // 143. more_arguments: expr
    Terminal(41), // 143. more_arguments: ','
    Action(4), // 145. literal: @literal
    Terminal(16), // 145. literal: 'true'
    Action(4), // 146. literal: @literal
    Terminal(17), // 146. literal: 'false'
    Action(4), // 147. literal: @literal
    Terminal(18), // 147. literal: 'null'
    Action(4), // 148. literal: @literal
    Terminal(19), // 148. literal: 'empty'
    Action(4), // 149. literal: @literal
    Terminal(15), // 149. literal: 'this'
    Action(4), // 150. literal: @literal
    Terminal(2), // 150. literal: Int
    Action(5), // 151. literal: @text
    Terminal(3), // 151. literal: Text
    Action(12), // 152. literal: @new
    Terminal(37), // 152. literal: ')'
    Nonterminal(53), // 152. literal: arguments
    Terminal(36), // 152. literal: '('
    Action(3), // 152. literal: @name
    Nonterminal(18), // 152. literal: name
    Terminal(14), // 152. literal: 'new'
    Action(6), // 153. source: @source
    Terminal(2), // 153. source: Int
    Terminal(59), // 153. source: '@'
    Nonterminal(55), // 154. primary: literal
    Nonterminal(47), // 155. primary: behind_name
    Action(3), // 155. primary: @name
    Nonterminal(19), // 155. primary: plain
    Nonterminal(48), // 156. primary: behind_quantifier
    Action(3), // 156. primary: @name
    Nonterminal(20), // 156. primary: quantifier
    Action(14), // 157. primary: @group
    Terminal(37), // 157. primary: ')'
    Nonterminal(22), // 157. primary: expr
    Terminal(36), // 157. primary: '('
];

pub const JRAG_CHOICE: [u8; 3712] = [
    0, 255, 255, 255, 0, 255, 255, 255, 255, 255, 255, 255, 255, 255, 255, 255, 255, 255, 255, 255,
    255, 255, 255, 255, 255, 255, 255, 255, 255, 255, 255, 255, 255, 255, 255, 255, 255, 255, 255,
    255, 255, 255, 255, 255, 255, 255, 255, 255, 255, 255, 255, 255, 255, 255, 255, 255, 255, 255,
    255, 255, 255, 255, 255, 0, 255, 1, 1, 1, 255, 255, 255, 255, 255, 255, 255, 255, 255, 255, 1,
    1, 1, 1, 1, 1, 255, 255, 255, 255, 255, 1, 1, 1, 1, 1, 1, 1, 1, 255, 255, 255, 1, 255, 255,
    255, 255, 255, 255, 255, 255, 255, 255, 255, 255, 255, 255, 255, 255, 255, 1, 255, 1, 255, 255,
    1, 255, 255, 255, 255, 3, 255, 255, 255, 2, 255, 255, 255, 255, 255, 255, 255, 255, 255, 255,
    255, 255, 255, 255, 255, 255, 255, 255, 255, 255, 255, 255, 255, 255, 255, 255, 255, 255, 255,
    255, 255, 255, 255, 255, 255, 255, 255, 255, 255, 255, 255, 255, 255, 255, 255, 255, 255, 255,
    255, 255, 255, 255, 255, 255, 255, 255, 255, 255, 3, 255, 4, 255, 255, 255, 4, 4, 4, 4, 255,
    255, 255, 255, 255, 255, 255, 255, 255, 255, 255, 255, 255, 255, 255, 255, 4, 4, 4, 4, 4, 4, 4,
    4, 255, 5, 255, 255, 255, 255, 255, 255, 255, 255, 255, 255, 255, 255, 255, 255, 255, 255, 255,
    255, 255, 255, 255, 255, 255, 255, 255, 255, 255, 255, 5, 255, 10, 255, 255, 255, 6, 7, 8, 9,
    255, 255, 255, 255, 255, 255, 255, 255, 255, 255, 255, 255, 255, 255, 255, 255, 10, 10, 10, 10,
    10, 10, 10, 10, 255, 255, 255, 255, 255, 255, 255, 255, 255, 255, 255, 255, 255, 255, 255, 255,
    255, 255, 255, 255, 255, 255, 255, 255, 255, 255, 255, 255, 255, 255, 255, 255, 13, 255, 255,
    255, 255, 255, 255, 255, 12, 11, 255, 255, 255, 255, 255, 255, 255, 255, 255, 255, 13, 13, 13,
    13, 13, 13, 13, 13, 13, 13, 13, 13, 255, 255, 255, 255, 255, 255, 255, 255, 255, 255, 255, 255,
    255, 255, 255, 255, 255, 255, 255, 255, 255, 255, 255, 255, 255, 255, 255, 255, 255, 255, 13,
    255, 15, 255, 255, 255, 255, 255, 255, 255, 14, 255, 255, 255, 255, 255, 255, 255, 255, 255,
    255, 255, 15, 15, 15, 15, 15, 15, 15, 15, 15, 15, 15, 15, 255, 255, 255, 255, 255, 255, 255,
    255, 255, 255, 255, 255, 255, 255, 255, 255, 255, 255, 255, 255, 255, 255, 255, 255, 255, 255,
    255, 255, 255, 255, 15, 255, 17, 255, 255, 255, 255, 255, 255, 255, 255, 16, 255, 255, 255,
    255, 255, 255, 255, 255, 255, 255, 17, 17, 17, 17, 17, 17, 17, 17, 17, 17, 17, 17, 255, 255,
    255, 255, 255, 255, 255, 255, 255, 255, 255, 255, 255, 255, 255, 255, 255, 255, 255, 255, 255,
    255, 255, 255, 255, 255, 255, 255, 255, 255, 17, 255, 255, 255, 255, 255, 255, 255, 255, 255,
    255, 255, 255, 255, 255, 255, 255, 255, 255, 255, 255, 255, 255, 255, 255, 255, 255, 255, 255,
    18, 255, 255, 255, 255, 255, 255, 255, 255, 255, 255, 255, 19, 255, 19, 255, 255, 255, 255,
    255, 255, 255, 255, 255, 255, 255, 255, 255, 255, 255, 255, 255, 255, 255, 255, 19, 255, 255,
    255, 255, 255, 255, 255, 255, 255, 255, 255, 255, 255, 255, 255, 255, 255, 255, 255, 255, 255,
    255, 255, 255, 255, 255, 255, 255, 255, 255, 255, 255, 255, 255, 255, 255, 255, 255, 255, 255,
    21, 255, 20, 255, 255, 255, 255, 255, 255, 255, 255, 255, 255, 255, 255, 255, 255, 255, 255,
    255, 255, 255, 255, 21, 255, 255, 255, 255, 255, 255, 255, 255, 255, 255, 255, 255, 255, 255,
    255, 255, 255, 255, 255, 255, 255, 255, 255, 255, 255, 255, 255, 255, 255, 255, 255, 255, 255,
    255, 255, 22, 255, 255, 255, 255, 255, 255, 23, 255, 255, 255, 255, 255, 255, 255, 255, 255,
    255, 255, 255, 255, 255, 255, 255, 255, 255, 255, 255, 23, 255, 255, 255, 255, 255, 255, 255,
    255, 255, 255, 255, 255, 255, 255, 255, 255, 255, 255, 255, 255, 255, 255, 255, 255, 255, 255,
    24, 25, 255, 255, 255, 255, 255, 255, 255, 255, 255, 255, 255, 255, 25, 255, 255, 255, 255,
    255, 255, 255, 255, 255, 255, 255, 255, 255, 255, 255, 255, 255, 255, 255, 255, 255, 255, 25,
    255, 255, 255, 255, 255, 255, 255, 255, 255, 255, 255, 255, 255, 255, 255, 255, 255, 255, 255,
    255, 255, 255, 255, 255, 255, 255, 255, 26, 255, 255, 255, 255, 255, 255, 255, 255, 255, 255,
    255, 255, 27, 255, 255, 255, 255, 255, 255, 255, 255, 255, 255, 255, 255, 255, 255, 255, 255,
    255, 255, 255, 255, 255, 255, 27, 255, 255, 255, 255, 255, 255, 255, 255, 255, 255, 255, 28,
    29, 255, 255, 255, 255, 255, 255, 255, 255, 255, 255, 255, 255, 255, 255, 255, 255, 255, 255,
    255, 255, 255, 255, 255, 255, 255, 255, 255, 255, 255, 255, 255, 255, 255, 255, 255, 255, 255,
    255, 255, 255, 255, 255, 255, 255, 255, 255, 255, 255, 255, 255, 29, 255, 30, 255, 255, 255,
    255, 255, 255, 255, 255, 255, 255, 255, 255, 255, 255, 255, 255, 255, 255, 255, 30, 30, 30, 30,
    30, 30, 30, 30, 30, 30, 30, 30, 255, 255, 255, 255, 31, 255, 255, 255, 255, 255, 255, 255, 255,
    255, 255, 255, 255, 255, 255, 255, 255, 255, 255, 255, 255, 255, 255, 255, 255, 255, 31, 255,
    255, 255, 255, 255, 255, 255, 255, 255, 255, 255, 255, 255, 255, 255, 255, 255, 255, 255, 255,
    255, 255, 255, 255, 255, 255, 255, 255, 255, 255, 255, 255, 255, 255, 255, 255, 255, 33, 255,
    255, 255, 32, 255, 255, 255, 255, 255, 255, 255, 255, 255, 255, 255, 255, 255, 255, 255, 255,
    255, 255, 255, 255, 255, 33, 255, 34, 255, 255, 255, 255, 255, 255, 255, 255, 255, 255, 255,
    255, 255, 255, 255, 255, 255, 255, 255, 35, 34, 34, 34, 34, 34, 34, 34, 34, 34, 34, 34, 255,
    255, 255, 255, 255, 255, 255, 255, 255, 255, 255, 255, 255, 255, 255, 255, 255, 255, 255, 255,
    255, 255, 255, 255, 255, 255, 255, 255, 255, 255, 255, 255, 36, 255, 255, 255, 255, 255, 255,
    255, 255, 255, 255, 255, 255, 255, 255, 255, 255, 255, 255, 255, 255, 37, 38, 39, 36, 36, 36,
    36, 36, 36, 36, 36, 255, 255, 255, 255, 255, 255, 255, 255, 255, 255, 255, 255, 255, 255, 255,
    255, 255, 255, 255, 255, 255, 255, 255, 255, 255, 255, 255, 255, 255, 255, 255, 255, 40, 255,
    255, 255, 255, 255, 255, 255, 255, 255, 255, 255, 255, 255, 255, 255, 255, 255, 255, 255, 255,
    255, 255, 255, 41, 42, 43, 44, 45, 46, 47, 48, 255, 255, 255, 255, 255, 255, 255, 255, 255,
    255, 255, 255, 255, 255, 255, 255, 255, 255, 255, 255, 255, 255, 255, 255, 255, 255, 255, 255,
    255, 255, 255, 255, 49, 255, 255, 255, 255, 255, 255, 255, 255, 255, 255, 255, 255, 255, 255,
    255, 255, 255, 255, 255, 255, 255, 255, 255, 50, 51, 52, 53, 255, 255, 255, 255, 255, 255, 255,
    255, 255, 255, 255, 255, 255, 255, 255, 255, 255, 255, 255, 255, 255, 255, 255, 255, 255, 255,
    255, 255, 255, 255, 255, 255, 255, 255, 255, 255, 255, 255, 255, 255, 255, 255, 255, 255, 255,
    255, 255, 255, 255, 255, 255, 255, 255, 255, 255, 255, 255, 255, 255, 255, 255, 255, 255, 255,
    54, 55, 56, 57, 255, 255, 255, 255, 255, 255, 255, 255, 255, 255, 255, 255, 255, 255, 255, 255,
    255, 255, 255, 255, 255, 255, 255, 255, 255, 255, 255, 255, 255, 255, 255, 255, 58, 58, 58,
    255, 255, 255, 255, 255, 255, 255, 255, 255, 255, 58, 58, 58, 58, 58, 58, 255, 255, 255, 255,
    255, 58, 58, 58, 58, 58, 58, 58, 58, 255, 255, 255, 58, 255, 255, 255, 255, 255, 255, 255, 255,
    255, 255, 255, 255, 255, 255, 255, 255, 255, 58, 255, 58, 255, 255, 58, 255, 255, 255, 255,
    255, 59, 59, 59, 255, 255, 255, 255, 255, 255, 255, 255, 255, 255, 59, 59, 59, 59, 59, 59, 255,
    255, 255, 255, 255, 59, 59, 59, 59, 59, 59, 59, 59, 255, 255, 255, 59, 255, 255, 255, 255, 255,
    255, 255, 255, 255, 255, 255, 255, 255, 255, 255, 255, 255, 59, 255, 59, 255, 255, 59, 255,
    255, 255, 255, 60, 255, 255, 255, 255, 255, 255, 255, 255, 255, 255, 60, 60, 255, 255, 255,
    255, 255, 255, 255, 60, 255, 255, 255, 255, 255, 255, 255, 255, 255, 255, 255, 255, 255, 255,
    255, 255, 60, 255, 60, 60, 60, 255, 60, 60, 60, 60, 60, 60, 60, 60, 60, 60, 60, 60, 60, 255,
    60, 255, 255, 255, 255, 255, 60, 62, 255, 255, 255, 255, 255, 255, 255, 255, 255, 255, 62, 62,
    255, 255, 255, 255, 255, 255, 255, 255, 255, 255, 255, 255, 255, 255, 255, 255, 255, 255, 255,
    255, 255, 255, 255, 255, 62, 255, 62, 62, 62, 255, 61, 62, 255, 255, 255, 255, 255, 255, 255,
    255, 255, 255, 255, 255, 62, 255, 255, 255, 255, 255, 62, 255, 63, 63, 63, 255, 255, 255, 255,
    255, 255, 255, 255, 255, 255, 63, 63, 63, 63, 63, 63, 255, 255, 255, 255, 255, 63, 63, 63, 63,
    63, 63, 63, 63, 255, 255, 255, 63, 255, 255, 255, 255, 255, 255, 255, 255, 255, 255, 255, 255,
    255, 255, 255, 255, 255, 63, 255, 63, 255, 255, 63, 255, 255, 255, 255, 65, 255, 255, 255, 255,
    255, 255, 255, 255, 255, 255, 65, 65, 255, 255, 255, 255, 255, 255, 255, 255, 255, 255, 255,
    255, 255, 255, 255, 255, 255, 255, 255, 255, 255, 255, 255, 255, 65, 255, 65, 65, 65, 255, 65,
    65, 64, 255, 255, 255, 255, 255, 255, 255, 255, 255, 255, 255, 65, 255, 255, 255, 255, 255, 65,
    255, 66, 66, 66, 255, 255, 255, 255, 255, 255, 255, 255, 255, 255, 66, 66, 66, 66, 66, 66, 255,
    255, 255, 255, 255, 66, 66, 66, 66, 66, 66, 66, 66, 255, 255, 255, 66, 255, 255, 255, 255, 255,
    255, 255, 255, 255, 255, 255, 255, 255, 255, 255, 255, 255, 66, 255, 66, 255, 255, 66, 255,
    255, 255, 255, 68, 255, 255, 255, 255, 255, 255, 255, 255, 255, 255, 68, 68, 255, 255, 255,
    255, 255, 255, 255, 255, 255, 255, 255, 255, 255, 255, 255, 255, 255, 255, 255, 255, 255, 255,
    255, 255, 68, 255, 68, 68, 68, 255, 68, 68, 68, 67, 255, 255, 255, 255, 255, 255, 255, 255,
    255, 255, 68, 255, 255, 255, 255, 255, 68, 255, 69, 69, 69, 255, 255, 255, 255, 255, 255, 255,
    255, 255, 255, 69, 69, 69, 69, 69, 69, 255, 255, 255, 255, 255, 69, 69, 69, 69, 69, 69, 69, 69,
    255, 255, 255, 69, 255, 255, 255, 255, 255, 255, 255, 255, 255, 255, 255, 255, 255, 255, 255,
    255, 255, 69, 255, 69, 255, 255, 69, 255, 255, 255, 255, 72, 255, 255, 255, 255, 255, 255, 255,
    255, 255, 255, 72, 72, 255, 255, 255, 255, 255, 255, 255, 255, 255, 255, 255, 255, 255, 255,
    255, 255, 255, 255, 255, 255, 255, 255, 255, 255, 72, 255, 72, 72, 72, 255, 72, 72, 72, 72, 70,
    71, 255, 255, 255, 255, 255, 255, 255, 255, 72, 255, 255, 255, 255, 255, 72, 255, 73, 73, 73,
    255, 255, 255, 255, 255, 255, 255, 255, 255, 255, 73, 73, 73, 73, 73, 73, 255, 255, 255, 255,
    255, 73, 73, 73, 73, 73, 73, 73, 73, 255, 255, 255, 73, 255, 255, 255, 255, 255, 255, 255, 255,
    255, 255, 255, 255, 255, 255, 255, 255, 255, 73, 255, 73, 255, 255, 73, 255, 255, 255, 255, 79,
    255, 255, 255, 255, 255, 255, 255, 255, 255, 255, 79, 79, 255, 255, 255, 255, 255, 255, 255,
    78, 255, 255, 255, 255, 255, 255, 255, 255, 255, 255, 255, 255, 255, 255, 255, 255, 79, 255,
    79, 79, 79, 255, 79, 79, 79, 79, 79, 79, 74, 75, 76, 77, 255, 255, 255, 255, 79, 255, 255, 255,
    255, 255, 79, 255, 80, 80, 80, 255, 255, 255, 255, 255, 255, 255, 255, 255, 255, 80, 80, 80,
    80, 80, 80, 255, 255, 255, 255, 255, 80, 80, 80, 80, 80, 80, 80, 80, 255, 255, 255, 80, 255,
    255, 255, 255, 255, 255, 255, 255, 255, 255, 255, 255, 255, 255, 255, 255, 255, 80, 255, 80,
    255, 255, 80, 255, 255, 255, 255, 83, 255, 255, 255, 255, 255, 255, 255, 255, 255, 255, 83, 83,
    255, 255, 255, 255, 255, 255, 255, 83, 255, 255, 255, 255, 255, 255, 255, 255, 255, 255, 255,
    255, 255, 255, 255, 255, 83, 255, 83, 83, 83, 255, 83, 83, 83, 83, 83, 83, 83, 83, 83, 83, 81,
    82, 255, 255, 83, 255, 255, 255, 255, 255, 83, 255, 84, 84, 84, 255, 255, 255, 255, 255, 255,
    255, 255, 255, 255, 84, 84, 84, 84, 84, 84, 255, 255, 255, 255, 255, 84, 84, 84, 84, 84, 84,
    84, 84, 255, 255, 255, 84, 255, 255, 255, 255, 255, 255, 255, 255, 255, 255, 255, 255, 255,
    255, 255, 255, 255, 84, 255, 84, 255, 255, 84, 255, 255, 255, 255, 86, 255, 255, 255, 255, 255,
    255, 255, 255, 255, 255, 86, 86, 255, 255, 255, 255, 255, 255, 255, 86, 255, 255, 255, 255,
    255, 255, 255, 255, 255, 255, 255, 255, 255, 255, 255, 255, 86, 255, 86, 86, 86, 255, 86, 86,
    86, 86, 86, 86, 86, 86, 86, 86, 86, 86, 85, 255, 86, 255, 255, 255, 255, 255, 86, 255, 89, 89,
    89, 255, 255, 255, 255, 255, 255, 255, 255, 255, 255, 89, 89, 89, 89, 89, 89, 255, 255, 255,
    255, 255, 89, 89, 89, 89, 89, 89, 89, 89, 255, 255, 255, 89, 255, 255, 255, 255, 255, 255, 255,
    255, 255, 255, 255, 255, 255, 255, 255, 255, 255, 88, 255, 87, 255, 255, 89, 255, 255, 255,
    255, 255, 90, 90, 90, 255, 255, 255, 255, 255, 255, 255, 255, 255, 255, 90, 90, 90, 90, 90, 90,
    255, 255, 255, 255, 255, 90, 90, 90, 90, 90, 90, 90, 90, 255, 255, 255, 90, 255, 255, 255, 255,
    255, 255, 255, 255, 255, 255, 255, 255, 255, 255, 255, 255, 255, 255, 255, 255, 255, 255, 91,
    255, 255, 255, 255, 255, 93, 95, 95, 255, 255, 255, 255, 255, 255, 255, 255, 255, 255, 95, 95,
    95, 95, 95, 95, 255, 255, 255, 255, 255, 93, 93, 93, 93, 94, 94, 94, 94, 255, 255, 255, 92,
    255, 255, 255, 255, 255, 255, 255, 255, 255, 255, 255, 255, 255, 255, 255, 255, 255, 255, 255,
    255, 255, 255, 255, 255, 255, 255, 255, 255, 96, 98, 98, 255, 255, 255, 255, 255, 255, 255,
    255, 255, 255, 98, 98, 98, 98, 98, 98, 255, 255, 255, 255, 255, 96, 96, 96, 96, 97, 97, 97, 97,
    255, 255, 255, 98, 255, 255, 255, 255, 255, 255, 255, 255, 255, 255, 255, 255, 255, 255, 255,
    255, 255, 98, 255, 98, 255, 255, 98, 255, 255, 255, 255, 255, 255, 255, 255, 255, 255, 255,
    255, 255, 255, 255, 255, 255, 255, 255, 255, 255, 255, 255, 255, 101, 255, 255, 255, 255, 255,
    255, 255, 255, 255, 255, 255, 255, 255, 255, 101, 100, 99, 255, 255, 255, 255, 255, 101, 255,
    101, 101, 101, 101, 101, 101, 101, 101, 101, 101, 101, 255, 255, 255, 255, 255, 255, 255, 255,
    255, 255, 255, 255, 255, 255, 255, 255, 255, 255, 255, 255, 255, 255, 255, 255, 255, 255, 255,
    255, 104, 255, 255, 255, 255, 255, 255, 255, 255, 255, 255, 255, 255, 255, 255, 104, 103, 102,
    255, 255, 255, 255, 255, 104, 255, 104, 104, 104, 104, 104, 104, 104, 104, 104, 104, 104, 255,
    255, 255, 255, 255, 255, 255, 255, 106, 105, 105, 105, 255, 255, 255, 255, 255, 255, 255, 106,
    106, 255, 105, 105, 105, 105, 105, 105, 106, 255, 255, 255, 255, 105, 105, 105, 105, 105, 105,
    105, 105, 255, 255, 106, 105, 106, 255, 106, 106, 106, 255, 106, 106, 106, 106, 106, 106, 106,
    106, 106, 106, 106, 106, 106, 255, 106, 255, 255, 255, 255, 255, 106, 255, 255, 110, 110, 255,
    255, 255, 255, 255, 255, 255, 255, 255, 255, 110, 110, 110, 110, 110, 110, 255, 255, 255, 255,
    255, 255, 255, 255, 255, 255, 255, 255, 255, 255, 255, 255, 109, 255, 255, 255, 255, 255, 255,
    255, 255, 255, 255, 255, 255, 255, 255, 255, 255, 255, 108, 255, 107, 255, 255, 111, 255, 255,
    255, 255, 255, 255, 255, 255, 255, 255, 255, 255, 255, 255, 255, 255, 255, 255, 255, 255, 255,
    255, 255, 255, 112, 255, 255, 255, 255, 255, 255, 255, 255, 255, 255, 255, 255, 255, 255, 112,
    255, 112, 255, 255, 255, 112, 255, 112, 255, 112, 112, 112, 112, 112, 112, 112, 112, 112, 112,
    112, 255, 255, 255, 255, 255, 255, 255, 112, 255, 255, 255, 255, 255, 255, 255, 255, 255, 255,
    255, 255, 255, 255, 255, 255, 255, 255, 255, 255, 121, 255, 255, 255, 255, 255, 255, 255, 255,
    255, 255, 255, 255, 255, 255, 113, 255, 255, 255, 255, 255, 255, 255, 126, 255, 125, 124, 122,
    123, 117, 118, 119, 120, 115, 116, 114, 255, 255, 255, 255, 255, 255, 255, 255, 128, 255, 255,
    255, 255, 255, 255, 255, 255, 255, 255, 128, 128, 255, 255, 255, 255, 255, 255, 255, 128, 255,
    255, 255, 255, 255, 255, 255, 255, 255, 255, 255, 255, 255, 255, 128, 127, 128, 255, 128, 128,
    128, 255, 128, 128, 128, 128, 128, 128, 128, 128, 128, 128, 128, 128, 128, 255, 128, 255, 255,
    255, 255, 255, 128, 130, 255, 255, 255, 255, 255, 255, 255, 255, 255, 255, 130, 130, 255, 255,
    255, 255, 255, 255, 255, 130, 255, 255, 255, 255, 255, 255, 255, 255, 255, 255, 255, 255, 255,
    255, 130, 129, 130, 255, 130, 130, 130, 255, 130, 130, 130, 130, 130, 130, 130, 130, 130, 130,
    130, 130, 130, 255, 130, 255, 255, 255, 255, 255, 130, 255, 132, 134, 134, 255, 255, 255, 255,
    255, 255, 255, 255, 255, 255, 134, 134, 134, 134, 134, 134, 255, 255, 255, 255, 255, 132, 132,
    132, 132, 133, 133, 133, 133, 255, 255, 255, 134, 131, 255, 255, 255, 255, 255, 255, 255, 255,
    255, 255, 255, 255, 255, 255, 255, 255, 134, 255, 134, 255, 255, 134, 255, 255, 255, 255, 255,
    255, 255, 255, 255, 255, 255, 255, 255, 255, 255, 255, 255, 255, 255, 255, 255, 255, 255, 255,
    136, 255, 255, 255, 255, 255, 255, 255, 255, 255, 255, 255, 255, 255, 255, 136, 136, 136, 255,
    255, 255, 136, 255, 136, 135, 136, 136, 136, 136, 136, 136, 136, 136, 136, 136, 136, 255, 255,
    255, 255, 255, 255, 255, 255, 255, 255, 255, 255, 255, 255, 255, 255, 255, 255, 255, 255, 255,
    255, 255, 255, 255, 255, 255, 255, 138, 255, 255, 255, 255, 255, 255, 255, 255, 255, 255, 255,
    255, 255, 255, 138, 138, 138, 255, 255, 255, 138, 255, 138, 137, 138, 138, 138, 138, 138, 138,
    138, 138, 138, 138, 138, 255, 255, 255, 255, 255, 255, 255, 255, 140, 255, 255, 255, 255, 255,
    255, 255, 255, 255, 255, 140, 140, 255, 255, 255, 255, 255, 255, 255, 140, 255, 255, 255, 255,
    255, 255, 255, 255, 255, 255, 255, 255, 255, 255, 139, 255, 140, 255, 140, 140, 140, 255, 140,
    140, 140, 140, 140, 140, 140, 140, 140, 140, 140, 140, 140, 255, 140, 255, 255, 255, 255, 255,
    140, 255, 141, 141, 141, 255, 255, 255, 255, 255, 255, 255, 255, 255, 255, 141, 141, 141, 141,
    141, 141, 255, 255, 255, 255, 255, 141, 141, 141, 141, 141, 141, 141, 141, 255, 255, 255, 141,
    142, 255, 255, 255, 255, 255, 255, 255, 255, 255, 255, 255, 255, 255, 255, 255, 255, 141, 255,
    141, 255, 255, 141, 255, 255, 255, 142, 255, 255, 255, 255, 255, 255, 255, 255, 255, 255, 255,
    255, 255, 255, 255, 255, 255, 255, 255, 255, 255, 255, 255, 255, 255, 255, 255, 255, 255, 255,
    255, 255, 255, 255, 255, 255, 255, 144, 255, 255, 255, 143, 255, 255, 255, 255, 255, 255, 255,
    255, 255, 255, 255, 255, 255, 255, 255, 255, 255, 255, 255, 255, 255, 144, 255, 255, 150, 151,
    255, 255, 255, 255, 255, 255, 255, 255, 255, 255, 152, 149, 145, 146, 147, 148, 255, 255, 255,
    255, 255, 255, 255, 255, 255, 255, 255, 255, 255, 255, 255, 255, 255, 255, 255, 255, 255, 255,
    255, 255, 255, 255, 255, 255, 255, 255, 255, 255, 255, 255, 255, 255, 255, 255, 255, 255, 255,
    255, 255, 255, 255, 255, 255, 255, 255, 255, 255, 255, 255, 255, 255, 255, 255, 255, 255, 255,
    255, 255, 255, 255, 255, 255, 255, 255, 255, 255, 255, 255, 255, 255, 255, 255, 255, 255, 255,
    255, 255, 255, 255, 255, 255, 255, 255, 255, 255, 255, 255, 255, 255, 255, 255, 255, 255, 255,
    255, 255, 255, 255, 255, 153, 255, 255, 255, 255, 255, 155, 154, 154, 255, 255, 255, 255, 255,
    255, 255, 255, 255, 255, 154, 154, 154, 154, 154, 154, 255, 255, 255, 255, 255, 155, 155, 155,
    155, 156, 156, 156, 156, 255, 255, 255, 157, 255, 255, 255, 255, 255, 255, 255, 255, 255, 255,
    255, 255, 255, 255, 255, 255, 255, 255, 255, 255, 255, 255, 255, 255, 255, 255, 255,
];
